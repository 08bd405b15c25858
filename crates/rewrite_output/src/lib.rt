// What `rewrite` prints: from a plan file's bytes, as the archive opens it, to the plan's canonical text.
#![tactic(auto)]

ghost use Rattle.std.specs.Prelude.{◌≡◌, length};
ghost use Rattle.text.specs.Texts.{put_into};
ghost use Rattle.frames.specs.Reading.{archive_reading, file_read};
ghost use Rattle.output.specs.OnFile.{answer_on};
ghost use Rattle.rewrite_output.specs.Rewritten.{rewritten_text};

use output::Written;

// What `rewrite` prints on a plan file, into the lent buffer.
pub fn rewritten_text(text: &[u8], out: &mut [u8]) -> Written
    ensures value { result ≡ answer_on (file_read (archive_reading text.now)) (rewritten_text text.now) (length out.old) }
    ensures out_after { out.new ≡ put_into (rewritten_text text.now) out.old }
{
    match frames::read_archive(text) {
        Ok(a) => output::on_line(0, writer::write_plan(a.progress.plan, out)),
        Err(e) => output::refused(e, out),
    }
}
