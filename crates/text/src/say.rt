// What a program says to its user, on standard output. Where that fails nothing more is done about it.
//
// Text is printed by `print!` and `println!`, whose error is dropped: `let _ = println!(rt; "{n} elements");`.

// Bytes as they are: a file's name or a word of the command line, which need not be text.
pub fn say(rt: &impl Print, bytes: &[u8]) {
    let _ = rt.write_all(bytes);
}
