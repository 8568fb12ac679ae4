/// How a recording sends the commands of its players.
#[derive(Clone, Copy, Debug, PartialEq, Eq)]
pub enum Sending {
    /// Each packet has one command, and each arrives.
    Once,
    /// Each packet repeats the two commands before its own, and one of three arrives.
    Repeated,
}
