// The judgement on a plan record, the planner's and the quoting desk's.
use super::said::Call;
use super::say::Line;
use partition::{VerdictError, Witness};

// The number of a refusal, 1 for a fail, and its sets.
fn judgement(verdict: Result<Option<Witness>, VerdictError>, line: &mut Line) {
    let none = Witness { f: 0, l: 0, r: 0 };
    let (number, failed, w) = match verdict {
        Ok(None) => (0, 0, none),
        Ok(Some(w)) => (0, 1, w),
        Err(e) => (u8::from(e), 0, none),
    };
    line.byte(number);
    line.byte(failed);
    line.quads(&[w.f, w.l, w.r]);
}

// A plan; the verdict on it, then the quote.
pub(crate) fn both(call: &mut Call, line: &mut Line) {
    let p = call.plan();
    judgement(partition::verdict(p), line);
    judgement(partition::quote(p), line);
}
