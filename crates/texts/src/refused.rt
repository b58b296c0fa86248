use refusal::Refusal;

// The number and the line of what was read, where it was refused.
pub(crate) fn refused<T: Drop>(read: Result<T, Refusal>) -> Option<(u8, usize)> {
    let refusal = read.err()?;
    Some((refusal.reason.number(), refusal.line))
}
