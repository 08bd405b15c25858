// Plays recorded calls through the proved functions and prints what they answer, a line a call.
// A call is its kind, the length of the list that it lends, the length of the rest, both in two
// bytes, high byte first, and the rest.
#![tactic(auto)]

mod calls;
mod drawn;
mod judged;
mod lent;
mod said;
mod say;
mod shared;
mod standings;
mod texts;
mod worded;

use said::Call;
use say::Line;

// The most bytes that a call has beside its head.
const ROOM: usize = 60000;

// One call of a kind, and its line; a kind that is none has an empty line. `size` is the length of the
// list that the call lends.
fn answer(kind: u8, size: usize, body: &[u8], line: &mut Line) {
    let call = &mut Call::of(body);
    match kind {
        b'v' => texts::on_file(size, line, |out| verdict_output::verdict_text(body, out)),
        b'a' => texts::on_file(size, line, |out| verdict_output::archive_text(body, out)),
        b'q' => texts::on_file(size, line, |out| verdict_output::quote_text(body, out)),
        b'm' => texts::on_file(size, line, |out| margin_output::margins_text(body, out)),
        b'g' => texts::on_file(size, line, |out| greatest_output::greatest_text(body, out)),
        b'e' => texts::on_file(size, line, |out| sentence_output::sentence_text(body, out)),
        b'h' => texts::on_file(size, line, |out| sentence_output::heard_text(body, out)),
        b'r' => texts::on_file(size, line, |out| run_output::run_text(body, out)),
        b'd' => texts::archive(body, line),
        b'f' => texts::run(size, body, line),
        b'p' => texts::plan(size, call, line),
        b's' => calls::step(size, call, line),
        b'i' => calls::issue(call, line),
        b'w' => calls::witness(call, line),
        b'c' => calls::fault_set(call, line),
        b'j' => judged::both(call, line),
        b'M' => standings::margins(call, line),
        b'G' => drawn::greatest(call, line),
        b'E' => worded::compose(size, call, line),
        b'H' => worded::read(body, line),
        b'n' => calls::site(size, call, line),
        b'l' => lent::run(size, call, line),
        b'S' => shared::step(size, call, line),
        b'C' => shared::fault_set(call, line),
        b'N' => shared::site(size, call, line),
        b'L' => shared::lent(size, call, line),
        _ => {}
    }
}

// Plays the call and prints its line.
fn play(kind: u8, size: usize, body: &[u8]) {
    let mut line = Line::empty();
    answer(kind, size, body, &mut line);
    line.end();
    io::write_all(1, line.digits());
}

// Reads one call and plays it; whether there was one.
fn next() -> bool {
    let mut head = [0u8; 5];
    let mut body = [0u8; ROOM];
    if io::read_full(0, &mut head) < 5 {
        return false;
    }
    let mut call = Call::of(&head);
    let kind = call.byte();
    let size = usize::from(call.pair());
    let Some(body) = body.get_mut(..usize::from(call.pair())) else {
        return false;
    };
    if io::read_full(0, body) < body.len() {
        return false;
    }
    play(kind, size, body);
    true
}

// At most so many, so that it ends on an input without end.
fn main() {
    for _ in 0..100000 {
        if !next() {
            return;
        }
    }
}
