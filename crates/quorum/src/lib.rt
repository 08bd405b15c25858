// The numbers of a plan and of a run, what a terminal may hear, who may be bad together, and what a notice
// is: causes 4, 5, 9, 16 and 17 have one test each.
#![tactic(auto)]

ghost use Rattle.std.specs.Prelude.{◌≡◌, eqb, ltb, get_or};
ghost use Rattle.sets.specs.Tests.{◌implies◌, pick};
ghost use Rattle.sets.specs.Sets.{mem, all, some};
ghost use Rattle.quorum.specs.Quorum.{kind_in_range, in_range, listed, others, listed_sound, groups_sound, enough};
ghost use Rattle.quorum.specs.Notice.{notice_of, edition_of, layout_of, silent, first_edition, rising};
ghost use Rattle.quorum.specs.Words.{start_sound};

// Most(f): a good terminal hears at most f bad ones. Groups(count): the bad ones are some of one group.
#[derive(Clone, Copy)]
pub enum BoundKind {
    Most(usize),
    Groups(usize),
}

// Who may be bad together. groups[i] is the set of group i; the places after those that are listed are 0,
// so all sixteen of a bound f.
#[derive(Clone, Copy)]
pub struct Bound {
    pub kind: BoundKind,
    pub groups: [u32; 16],
}

fn kind_in_range(n: usize, kind: BoundKind) -> bool
    ensures { result ≡ kind_in_range n kind }
{
    match kind {
        BoundKind::Most(f) => f < n,
        BoundKind::Groups(_) => true,
    }
}

pub fn in_range(n: usize, source: usize, kind: BoundKind) -> bool
    ensures { result ≡ in_range n source kind }
{
    if 2 <= n && n <= 20 && source < n {
        return kind_in_range(n, kind);
    }
    false
}

// The set has terminals below n only, and not this one.
pub fn others(n: usize, own: usize, s: u32) -> bool
    ensures { result ≡ others n own s }
{
    sets::within(s, n) && !sets::member(s, own)
}

// So many groups are listed.
pub fn listed(kind: BoundKind) -> usize
    ensures { result ≡ listed kind }
{
    match kind {
        BoundKind::Most(_) => 0,
        BoundKind::Groups(count) => count,
    }
}

// One to sixteen groups are listed, where there are any.
fn listed_sound(kind: BoundKind) -> bool
    ensures { result ≡ listed_sound kind }
{
    match kind {
        BoundKind::Most(_) => true,
        BoundKind::Groups(count) => 1 <= count && count <= 16,
    }
}

// The group at place i, of so many that are listed.
fn place_sound(n: usize, source: usize, is_listed: bool, group: u32) -> bool
    ensures { result ≡ pick is_listed (others n source group) (eqb group 0) }
{
    if is_listed {
        others(n, source, group)
    } else {
        group == 0
    }
}

fn places_sound(n: usize, source: usize, count: usize, groups: [u32; 16]) -> bool
    ensures { result ≡ all 16 (λ i. pick (ltb i count) (others n source (get_or groups i 0)) (eqb (get_or groups i 0) 0)) }
{
    for i in 0..16 {
        if !place_sound(n, source, i < count, groups[i]) {
            return false;
        }
    }
    true
}

pub fn groups_sound(n: usize, source: usize, bound: Bound) -> bool
    ensures { result ≡ groups_sound n source bound }
{
    listed_sound(bound.kind) && places_sound(n, source, listed(bound.kind), bound.groups)
}

// The set lies in one of the groups; the empty one lies in any. The loop has no early end, so that the compiler can compare
// several groups at once.
fn fits(groups: [u32; 16], who: u32) -> bool
    ensures { result ≡ some 16 (λ i. all 32 (λ j. mem j who implies mem j (get_or groups i 0))) }
{
    let mut found = false;
    for group in &groups {
        found = found | (who & !*group == 0);
    }
    found
}

// The set's terminals can't all be bad: they are more than f, or lie in no group.
pub fn enough(bound: Bound, who: u32) -> bool
    ensures { result ≡ enough 32 bound (λ j. mem j who) }
{
    match bound.kind {
        BoundKind::Most(f) => f < u32::count_ones(who) as usize,
        BoundKind::Groups(_) => !fits(bound.groups, who),
    }
}

// A notice is one number: edition times 65,536 and the layout.
pub fn notice_of(edition: u16, layout: u16) -> u32
    ensures { result ≡ notice_of edition layout }
{
    (edition as u32) * 65536 + (layout as u32)
}

pub fn edition_of(notice: u32) -> u16
    ensures { result ≡ edition_of notice }
{
    (notice / 65536) as u16
}

pub fn layout_of(notice: u32) -> u16
    ensures { result ≡ layout_of notice }
{
    (notice % 65536) as u16
}

// A zero in either half is silence.
pub fn silent(notice: u32) -> bool
    ensures { result ≡ silent notice }
{
    edition_of(notice) == 0 || layout_of(notice) == 0
}

// A layout that is said without an edition counts as edition 1; 0 stays silence.
pub fn first_edition(layout: u16) -> u32
    ensures { result ≡ first_edition layout }
{
    if layout == 0 { 0 } else { notice_of(1, layout) }
}

// The editions that are issued later rise, each above the last before it. Silence issues nothing.
pub fn rising(first: u16, later: &[u32]) -> bool
    ensures { result ≡ rising first later.now }
{
    let mut last = first;
    for &notice in later {
        if !silent(notice) {
            let edition = edition_of(notice);
            if edition <= last {
                return false;
            }
            last = edition;
        }
    }
    true
}

// A run can start so: a layout that is not 0, and 0 to 40 rounds.
pub fn start_sound(layout: u16, rounds: u8) -> bool
    ensures { result ≡ start_sound layout rounds }
{
    layout != 0 && rounds <= 40
}
