// Where the links end, and what refuses a whole file there.
ghost use Rattle.std.specs.Prelude.{◌≡◌, ◌≤◌};
ghost use Rattle.quorum.specs.Quorum.{most_terminals};
ghost use Rattle.frames.specs.Reading.{lists_none, ends_links, links_cause, end_cause};
ghost use Rattle.frames.specs.Causes.{refused_by};

use super::cause::Cause;
use super::{Progress, Reader, deaf, in_plan, told};
use lines::Frame;
use quorum::BoundKind;

// A frame that could be read, and is no link, nor a group where groups are listed: arm by arm as the definition has it.
fn ends_links(kind: BoundKind, frame: Frame) -> bool
    ensures { result ≡ ends_links kind frame }
{
    match frame {
        Frame::Foreign => false,
        Frame::Unknown => false,
        Frame::Head(_, _, _) => true,
        Frame::Link(_, _) => false,
        Frame::Group(_) => !told::lists(kind),
        Frame::Channel(_) => true,
        Frame::FaultSet(_) => true,
        Frame::Start(_, _, _, _) => true,
        Frame::Later(_, _, _) => true,
        Frame::Message(_, _, _, _, _, _) => true,
        Frame::Broadcast(_, _, _) => true,
    }
}

// Groups are listed, and none has been so far.
fn lists_none(kind: BoundKind) -> bool
    ensures { result ≡ lists_none kind }
{
    matches!(kind, BoundKind::Groups(0))
}

// What refuses the plan as links and groups have it.
pub(crate) fn links_cause(reader: Reader, p: &Progress) -> Result<(), Cause>
    requires { p.now.plan.n ≤ most_terminals }
    ensures { refused_by result ≡ links_cause reader p.now }
{
    if !in_plan(p) {
        return Ok(());
    }
    if lists_none(p.plan.bound.kind) {
        return Err(Cause::WrongGroups);
    }
    if !reader.archive && deaf::deaf_set(p.plan) != 0 {
        return Err(Cause::Deaf);
    }
    Ok(())
}

// The same where a line with this frame follows.
pub(crate) fn end_cause(reader: Reader, p: &Progress, frame: Frame) -> Result<(), Cause>
    requires { p.now.plan.n ≤ most_terminals }
    ensures { refused_by result ≡ end_cause reader p.now frame }
{
    if ends_links(p.plan.bound.kind, frame) {
        links_cause(reader, p)
    } else {
        Ok(())
    }
}
