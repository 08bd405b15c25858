// How each terminal of a plan record stands.
use super::said::Call;
use super::say::Line;
use partition::Standing;

// The kind of a standing, and its margin in two's complement; nothing of a terminal that the plan does not have.
fn standing(stands: Standing, line: &mut Line) {
    let (kind, margin) = match stands {
        Standing::Source => (0, 0),
        Standing::Direct => (1, 0),
        Standing::Margin(m) => (2, m),
        Standing::Absent => return,
    };
    line.byte(kind);
    line.quad(margin.cast_unsigned());
}

// A plan; the number of a refusal, or 0 and how each terminal stands.
pub(crate) fn margins(call: &mut Call, line: &mut Line) {
    match partition::margins(call.plan()) {
        Ok(standings) => {
            line.byte(0);
            for stands in standings {
                standing(stands, line);
            }
        }
        Err(e) => line.byte(u8::from(e)),
    }
}
