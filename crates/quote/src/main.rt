// Reads a plan file of the quoting desk from standard input, to its end or one byte past the largest
// file, and writes the verdict's line to standard output.
#![tactic(auto)]

// The other programs' mains are alike. Nothing can be promised of what is read and written, so that one function for
// all would be a public one without a contract.
fn main() {
    let mut file = [0u8; 24577];
    let n = io::read_full(0, &mut file);
    let mut out = [0u8; 272];
    let written = verdict_output::quote_text(&file[..n], &mut out);
    io::write_all(1, &out[..written.len]);
}
