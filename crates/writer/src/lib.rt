// A plan written as hexadecimal lines into a lent buffer.
#![tactic(auto)]

ghost use Rattle.std.specs.Prelude.{◌≡◌, ◌+◌, ◌*◌, ◌/◌, ◌%◌, ◌<◌, ◌≤◌, length};
ghost use Rattle.std.proofs.lemmas.List.Edits.{sets};
ghost use Rattle.quorum.specs.Quorum.{listed};
ghost use Rattle.plan.specs.Plan.{hears, cause_of};
ghost use Rattle.text.specs.Digits.{hex_byte};
ghost use Rattle.text.specs.Texts.{written_of, put_into};
ghost use Rattle.writer.specs.Written.{bound_byte, head_line, link_line, link_lines, group_line, group_lines, plan_text, written_text};

use plan::Plan;
use quorum::BoundKind;
use text::Written;

fn put_byte(out: &mut [u8], at: usize, b: usize)
    requires { (at + 2 ≤ length out.old) × (b < 256) }
    ensures { out.new ≡ sets out.old at (hex_byte b) }
{
    out[at] = text::high_digit(b as u8);
    out[at + 1] = text::low_digit(b as u8);
}

// The head's last byte: f, or ff where groups are listed instead.
fn bound_byte(kind: BoundKind) -> usize
    ensures { result ≡ bound_byte kind }
{
    match kind {
        BoundKind::Most(f) => f,
        BoundKind::Groups(_) => 255,
    }
}

fn put_head(p: Plan, out: &mut [u8])
    requires { (9 ≤ length out.old) × (p.n < 256) × (p.source < 256) × (bound_byte p.bound.kind < 256) }
    ensures { out.new ≡ sets out.old 0 (head_line p) }
{
    put_byte(out, 0, 1);
    put_byte(out, 2, p.n);
    put_byte(out, 4, p.source);
    put_byte(out, 6, bound_byte(p.bound.kind));
    out[8] = 10;
}

fn put_link(out: &mut [u8], at: usize, from: usize, to: usize)
    requires { (at + 7 ≤ length out.old) × (from < 256) × (to < 256) }
    ensures { out.new ≡ sets out.old at (link_line from to) }
{
    put_byte(out, at, 2);
    put_byte(out, at + 2, from);
    put_byte(out, at + 4, to);
    out[at + 6] = 10;
}

// Place k is that of sender k / 20 and hearer k % 20.
fn linked(p: &Plan, k: usize) -> bool
    ensures { result ≡ hears p.now (k % 20) (k / 20) }
{
    sets::member(p.rows[k % 20], k / 20)
}

fn links_len(p: Plan) -> usize
    ensures { result ≡ length (link_lines p 400 0) }
{
    let mut len = 0;
    for k in 0..400 {
        if linked(&p, k) {
            len += 7;
        }
    }
    len
}

fn put_links(p: Plan, out: &mut [u8])
    requires { 9 + length (link_lines p 400 0) ≤ length out.old }
    ensures { out.new ≡ sets out.old 9 (link_lines p 400 0) }
{
    let mut at = 9;
    for k in 0..400 {
        if linked(&p, k) {
            put_link(out, at, k / 20, k % 20);
            at += 7;
        }
    }
}

// A group's three bytes, the high one first.
fn put_group(out: &mut [u8], at: usize, s: u32)
    requires { (at + 9 ≤ length out.old) × (s < 16777216) }
    ensures { out.new ≡ sets out.old at (group_line s) }
{
    put_byte(out, at, 7);
    put_byte(out, at + 2, (s / 65536) as usize);
    put_byte(out, at + 4, (s % 65536 / 256) as usize);
    put_byte(out, at + 6, (s % 65536 % 256) as usize);
    out[at + 8] = 10;
}

fn put_groups(p: Plan, from: usize, out: &mut [u8])
    requires { (cause_of p ≡ 0) × (from + 9 * listed p.bound.kind ≤ length out.old) }
    ensures { out.new ≡ sets out.old from (group_lines p.bound.groups (listed p.bound.kind) 0) }
{
    for i in 0..quorum::listed(p.bound.kind) {
        put_group(out, from + 9 * i, p.bound.groups[i]);
    }
}

// The text of a sound plan into the front of the list, if it has room for it.
fn put_plan(p: Plan, out: &mut [u8]) -> Written
    requires { cause_of p ≡ 0 }
    ensures value { result ≡ written_of 0 (length (plan_text p)) (length out.old) }
    ensures out_after { out.new ≡ put_into (plan_text p) out.old }
{
    let groups_at = 9 + links_len(p);
    let len = groups_at + 9 * quorum::listed(p.bound.kind);
    let written = text::answer(0, len, out.len());
    if len <= out.len() {
        put_head(p, out);
        put_links(p, out);
        put_groups(p, groups_at, out);
    }
    written
}

// A plan's text into the front of the list. A refused call changes nothing.
pub fn write_plan(p: Plan, out: &mut [u8]) -> Written
    ensures value { result ≡ written_of (cause_of p) (length (written_text p)) (length out.old) }
    ensures out_after { out.new ≡ put_into (written_text p) out.old }
{
    match plan::check(p) {
        Ok(()) => put_plan(p, out),
        Err(e) => Written {
            number: u8::from(e),
            len: 0,
        },
    }
}
