// What each frame does to what is known so far, or why it is refused.
#![tactic(auto, using(crate::proofs::Rules::tests), unfolding(quorum::specs::Words::place_of, quorum::specs::Words::shared_place_of, plan::specs::Plan::heard_by, plan::specs::Plan::hears, crate::specs::Reading::kind_read, crate::specs::Reading::lists, crate::specs::Reading::head_cause, crate::specs::Reading::link_cause, crate::specs::Reading::group_cause, crate::specs::Reading::channel_cause, crate::specs::Reading::bad_set_cause, crate::specs::Reading::fault_set_cause, crate::specs::Reading::start_cause, crate::specs::Reading::later_cause, crate::specs::Reading::is_word, crate::specs::Reading::message_cause, crate::specs::Reading::is_broadcast, crate::specs::Reading::broadcast_cause, crate::specs::Reading::untaken_cause, crate::specs::Reading::linked, crate::specs::Reading::grouped, crate::specs::Reading::after))]

ghost use Rattle.std.specs.Prelude.{◌≡◌, not, ◌-◌, ◌<◌, ◌≤◌, eqb, [], ◌∷◌, length, set, IfOk};
ghost use Rattle.sets.specs.Tests.{pick};
ghost use Rattle.sets.specs.Causes.{◌gives◌, first_cause, given};
ghost use Rattle.lines.specs.declared.Frame.TheVariants.{Head, Link, Group, Channel, FaultSet, Start, Later};
ghost use Rattle.quorum.specs.Quorum.{most_terminals, most_groups, listed, in_range};
ghost use Rattle.quorum.specs.Notice.{notice_of};
ghost use Rattle.quorum.specs.Words.{most_rounds, most_words, place_of, shared_place_of};
ghost use Rattle.frames.specs.Reading.{kind_read, lists, rounds_of, head_cause, link_cause, group_cause, channel_cause, bad_set_cause, fault_set_cause, start_cause, later_cause, is_word, message_cause, is_broadcast, broadcast_cause, untaken_cause, line_cause, linked, grouped, spoken, after, both, said_after};
ghost use Rattle.frames.specs.Causes.{refused_by};

use super::cause::Cause;
use super::{
    Heads, Progress, Stage, has_edition, in_plan, is_at, is_shared, is_started, planned, unstarted,
    wrong_form,
};
use lines::{Form, Frame};
use plan::Plan;
use quorum::{Bound, BoundKind};

// The head's last byte: f, or ff where groups are listed instead.
fn kind_read(f: u8) -> BoundKind
    ensures { result ≡ kind_read f }
{
    if f == 255 {
        BoundKind::Groups(0)
    } else {
        BoundKind::Most(f as usize)
    }
}

// Why a reader does not take a head in range: it has more terminals than the reader takes, or lists
// groups, and the reader takes none.
fn untaken_cause(heads: Heads, n: u8, kind: BoundKind) -> Result<(), Cause>
    ensures { refused_by result ≡ untaken_cause heads n kind }
{
    if heads.most < n {
        Err(Cause::TooMany)
    } else if lists(kind) && !heads.groups {
        Err(Cause::WrongRange)
    } else {
        Ok(())
    }
}

// A head, by a reader that takes these.
fn head(heads: Heads, p: &mut Progress, n: u8, source: u8, f: u8) -> Result<(), Cause>
    ensures cause { refused_by result ≡ first_cause (given (head_cause p.old n source f) ∷ given (untaken_cause heads n (kind_read f)) ∷ []) }
    ensures next { IfOk result (λ _. p.new ≡ after p.old (Head n source f)) }
{
    let kind = kind_read(f);
    if !is_at(Stage::Nothing, p) {
        return Err(Cause::OutOfPlace);
    }
    if !quorum::in_range(n as usize, source as usize, kind) {
        return Err(Cause::WrongRange);
    }
    untaken_cause(heads, n, kind)?;
    let plan = Plan {
        n: n as usize,
        source: source as usize,
        bound: Bound {
            kind,
            groups: [0u32; 16],
        },
        rows: [0u32; 20],
    };
    *p = planned(Stage::Links, plan, 0);
    Ok(())
}

// The plan with one link more.
fn with_link(p: Plan, from: usize, to: usize) -> Plan
    requires { to < most_terminals }
    ensures { result ≡ linked p from to }
{
    let mut rows = p.rows;
    rows[to] = sets::with(rows[to], from);
    Plan { rows, ..p }
}

fn link(p: &mut Progress, from: usize, to: usize) -> Result<(), Cause>
    requires { p.old.plan.n ≤ most_terminals }
    ensures cause { refused_by result ≡ link_cause p.old from to }
    ensures next { IfOk result (λ _. p.new ≡ after p.old (Link from to)) }
{
    if !is_at(Stage::Links, p) {
        return Err(Cause::OutOfPlace);
    }
    if p.plan.n <= from || p.plan.n <= to || from == to {
        return Err(Cause::WrongLink);
    }
    if sets::member(p.plan.rows[to], from) {
        return Err(Cause::LinkTwice);
    }
    *p = planned(Stage::Links, with_link(p.plan, from, to), 0);
    Ok(())
}

// Groups are listed, not f.
pub(crate) fn lists(kind: BoundKind) -> bool
    ensures { result ≡ lists kind }
{
    matches!(kind, BoundKind::Groups(_))
}

// The plan with one group more, after those that are listed.
fn with_group(p: Plan, s: u32) -> Plan
    requires { listed p.bound.kind < most_groups }
    ensures { result ≡ grouped p s }
{
    let count = quorum::listed(p.bound.kind);
    let mut groups = p.bound.groups;
    groups[count] = s;
    Plan {
        bound: Bound {
            kind: BoundKind::Groups(count + 1),
            groups,
        },
        ..p
    }
}

fn group(p: &mut Progress, s: u32) -> Result<(), Cause>
    ensures cause { refused_by result ≡ group_cause p.old s }
    ensures next { IfOk result (λ _. p.new ≡ after p.old (Group s)) }
{
    if !in_plan(p) || !lists(p.plan.bound.kind) {
        return Err(Cause::OutOfPlace);
    }
    if 16 <= quorum::listed(p.plan.bound.kind) || !quorum::others(p.plan.n, p.plan.source, s) {
        return Err(Cause::WrongGroups);
    }
    *p = planned(Stage::Grouped, with_group(p.plan, s), 0);
    Ok(())
}

// The default layout of a shared channel: it comes once, where links and groups end.
fn channel(p: &mut Progress, default: u16) -> Result<(), Cause>
    ensures cause { refused_by result ≡ channel_cause p.old default }
    ensures next { IfOk result (λ _. p.new ≡ after p.old (Channel default)) }
{
    if !in_plan(p) {
        return Err(Cause::OutOfPlace);
    }
    if default == 0 {
        return Err(Cause::WrongNotice);
    }
    *p = unstarted(Stage::Shared, p.plan, 0, default);
    Ok(())
}

// What the library has against a bad set: on a shared channel the source may be bad too.
fn bad_set_cause(p: &Progress, s: u32) -> Result<(), Cause>
    ensures { refused_by result ≡ bad_set_cause p.now s }
{
    if is_shared(*p) {
        faults::check_shared_fault_set(p.plan, s)?;
    } else {
        faults::check_fault_set(p.plan, s)?;
    }
    Ok(())
}

// A bad set in its place, which is after links, groups and a default layout.
fn fault_set(p: &mut Progress, s: u32) -> Result<(), Cause>
    ensures cause { refused_by result ≡ fault_set_cause p.old s }
    ensures next { IfOk result (λ _. p.new ≡ after p.old (FaultSet s)) }
{
    if !in_plan(p) && !is_at(Stage::Shared, p) {
        return Err(Cause::OutOfPlace);
    }
    bad_set_cause(p, s)?;
    *p = unstarted(Stage::Faults, p.plan, s, p.default);
    Ok(())
}

// The rounds of a start frame on n terminals: n - 1 where they are left out. Before the head n is 0,
// and a start is refused whatever it means.
fn rounds_of(n: usize, rounds: Option<u8>) -> u8
    requires { n ≤ most_terminals }
    ensures { result ≡ rounds_of n rounds }
{
    rounds.unwrap_or(n.saturating_sub(1) as u8)
}

fn start(
    p: &mut Progress,
    form: Form,
    edition: u16,
    layout: u16,
    rounds: Option<u8>,
) -> Result<(), Cause>
    requires { p.old.plan.n ≤ most_terminals }
    ensures cause { refused_by result ≡ start_cause p.old form edition layout rounds }
    ensures next { IfOk result (λ _. p.new ≡ after p.old (Start form edition layout rounds)) }
{
    let rounds = rounds_of(p.plan.n, rounds);
    if wrong_form(p, form, has_edition(form)) {
        return Err(Cause::Unknown);
    }
    if !is_at(Stage::Faults, p) {
        return Err(Cause::OutOfPlace);
    }
    if !quorum::start_sound(layout, rounds) {
        return Err(Cause::WrongNotice);
    }
    if edition == 0 {
        return Err(Cause::WrongEdition);
    }
    *p = Progress {
        stage: Stage::Started,
        form,
        notice: quorum::notice_of(edition, layout),
        rounds,
        issued: 0,
        edition,
        ..*p
    };
    Ok(())
}

// A later notice, which is kept where it is accepted.
fn later_notice(
    p: &mut Progress,
    later: &mut [u32],
    round: u8,
    edition: u16,
    layout: u16,
) -> Result<(), Cause>
    requires { (p.old.rounds ≤ most_rounds) × (length later.old ≡ most_rounds) }
    ensures cause { refused_by result ≡ later_cause p.old round edition layout }
    ensures next { IfOk result (λ _. p.new ≡ after p.old (Later round edition layout)) }
    ensures kept { later.new ≡ pick (eqb (refused_by result) 0) (set later.old (round - 1) (notice_of edition layout)) later.old }
{
    if wrong_form(p, Form::New, true) {
        return Err(Cause::Unknown);
    }
    if !is_at(Stage::Started, p) || round <= p.issued || p.rounds < round {
        return Err(Cause::OutOfPlace);
    }
    if layout == 0 {
        return Err(Cause::WrongNotice);
    }
    if edition <= p.edition {
        return Err(Cause::WrongEdition);
    }
    later[(round as usize) - 1] = quorum::notice_of(edition, layout);
    *p = Progress {
        stage: Stage::Started,
        issued: round,
        edition,
        ..*p
    };
    Ok(())
}

// A word in a round that is played, on a link, from a bad sender, and not silence.
fn is_word(p: &Progress, round: u8, from: usize, to: usize, edition: u16, layout: u16) -> bool
    requires { p.now.plan.n ≤ most_terminals }
    ensures { result ≡ is_word p.now round from to edition layout }
{
    1 <= round
        && round <= p.rounds
        && from < p.plan.n
        && to < p.plan.n
        && sets::member(p.plan.rows[to], from)
        && sets::member(p.faulty, from)
        && edition != 0
        && layout != 0
}

// Where the word of a round, a sender and a hearer stands.
fn place_of(n: usize, round: u8, from: usize, to: usize) -> usize
    requires { (n ≤ most_terminals) × (1 ≤ round) × (round ≤ most_rounds) × (from < n) × (to < n) }
    ensures { (result ≡ place_of n round from to) × (result < most_words) }
{
    ((round as usize) - 1) * (n * n) + from * n + to
}

// A word that a liar says to a hearer: it is kept where it is accepted.
fn message(
    p: &mut Progress,
    words: &mut [u32],
    form: Form,
    round: u8,
    from: usize,
    to: usize,
    edition: u16,
    layout: u16,
) -> Result<(), Cause>
    requires { (p.old.plan.n ≤ most_terminals) × (p.old.rounds ≤ most_rounds) × (length words.old ≡ most_words) }
    ensures cause { refused_by result ≡ message_cause p.old words.old form round from to edition layout }
    ensures next { IfOk result (λ _. p.new ≡ spoken p.old) }
    ensures kept { words.new ≡ pick (eqb (refused_by result) 0) (set words.old (place_of p.old.plan.n round from to) (notice_of edition layout)) words.old }
{
    if wrong_form(p, form, true) {
        return Err(Cause::Unknown);
    }
    if !is_started(p) {
        return Err(Cause::OutOfPlace);
    }
    if !is_word(p, round, from, to, edition, layout) {
        return Err(Cause::WrongWord);
    }
    let place = place_of(p.plan.n, round, from, to);
    if words[place] != 0 {
        return Err(Cause::WordTwice);
    }
    words[place] = quorum::notice_of(edition, layout);
    p.stage = Stage::Words;
    Ok(())
}

// A word that names no hearer, in a round that is played, from a bad sender, and not silence.
fn is_broadcast(p: &Progress, round: u8, from: usize, layout: u16) -> bool
    ensures { result ≡ is_broadcast p.now round from layout }
{
    1 <= round
        && round <= p.rounds
        && from < p.plan.n
        && sets::member(p.faulty, from)
        && layout != 0
}

// Where the word of a round and a sender stands on a shared channel.
fn shared_place_of(n: usize, round: u8, from: usize) -> usize
    requires { (n ≤ most_terminals) × (1 ≤ round) × (round ≤ most_rounds) × (from < n) }
    ensures { (result ≡ shared_place_of n round from) × (result < most_words) }
{
    ((round as usize) - 1) * n + from
}

// A word without a hearer: it is kept where it is accepted, as one of edition 1. Beside `message` the two
// causes before the word's own change places, so each has its own tests.
fn broadcast(
    p: &mut Progress,
    words: &mut [u32],
    round: u8,
    from: usize,
    layout: u16,
) -> Result<(), Cause>
    requires { (p.old.plan.n ≤ most_terminals) × (p.old.rounds ≤ most_rounds) × (length words.old ≡ most_words) }
    ensures cause { refused_by result ≡ broadcast_cause p.old words.old round from layout }
    ensures next { IfOk result (λ _. p.new ≡ spoken p.old) }
    ensures kept { words.new ≡ pick (eqb (refused_by result) 0) (set words.old (shared_place_of p.old.plan.n round from) (notice_of 1 layout)) words.old }
{
    if !is_started(p) {
        return Err(Cause::OutOfPlace);
    }
    if !is_shared(*p) {
        return Err(Cause::Unknown);
    }
    if !is_broadcast(p, round, from, layout) {
        return Err(Cause::WrongWord);
    }
    let k = shared_place_of(p.plan.n, round, from);
    if words[k] != 0 {
        return Err(Cause::WordTwice);
    }
    words[k] = quorum::notice_of(1, layout);
    p.stage = Stage::Words;
    Ok(())
}

// A frame is told: what is known changes, or a cause refuses it, and then both lists stay as they are.
#[tactic(auto, using(crate::proofs::Rules::tests, crate::proofs::Limits::limit_below, crate::proofs::TellLaws::head_line_lem, crate::proofs::TellLaws::either), unfolding(crate::specs::Reading::cause_in, crate::specs::Reading::heads_cause, crate::specs::Reading::after, crate::specs::Reading::said_after))]
pub(crate) fn tell(
    heads: Heads,
    p: &mut Progress,
    words: &mut [u32],
    later: &mut [u32],
    frame: Frame,
) -> Result<(), Cause>
    requires { (p.old.plan.n ≤ most_terminals) × (p.old.rounds ≤ most_rounds) × (length words.old ≡ most_words) × (length later.old ≡ most_rounds) }
    ensures cause { refused_by result ≡ line_cause heads p.old (both words.old later.old) frame }
    ensures next { IfOk result (λ _. p.new ≡ after p.old frame) }
    ensures said { both words.new later.new ≡ pick (eqb (refused_by result) 0) (said_after p.old (both words.old later.old) frame) (both words.old later.old) }
{
    match frame {
        Frame::Foreign => Err(Cause::Foreign),
        Frame::Unknown => Err(Cause::Unknown),
        Frame::Head(n, source, f) => head(heads, p, n, source, f),
        Frame::Link(from, to) => link(p, from as usize, to as usize),
        Frame::Group(s) => group(p, s),
        Frame::Channel(default) => channel(p, default),
        Frame::FaultSet(s) => fault_set(p, s),
        Frame::Start(form, edition, layout, rounds) => start(p, form, edition, layout, rounds),
        Frame::Later(round, edition, layout) => later_notice(p, later, round, edition, layout),
        Frame::Message(form, round, from, to, edition, layout) => message(
            p,
            words,
            form,
            round,
            from as usize,
            to as usize,
            edition,
            layout,
        ),
        Frame::Broadcast(round, from, layout) => broadcast(p, words, round, from as usize, layout),
    }
}
