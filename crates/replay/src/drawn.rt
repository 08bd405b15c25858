// The greatest bound for which a drawing passes.
use super::said::Call;
use super::say::Line;

// A drawing; the number of a refusal, or 0, then 0 for none or 1, and the bound, 255 for what no bound is.
pub(crate) fn greatest(call: &mut Call, line: &mut Line) {
    match tolerance::greatest_bound(call.drawing()) {
        Ok(None) => line.bytes(&[0, 0, 0]),
        Ok(Some(f)) => line.bytes(&[0, 1, u8::try_from(f).unwrap_or(255)]),
        Err(e) => line.byte(u8::from(e)),
    }
}
