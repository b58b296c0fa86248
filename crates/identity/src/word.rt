// Words that stand for values.
ghost use Rattle.std.specs.Prelude.{◌≡◌};
ghost use Rattle.identity.specs.Words.{spelled};

// The value of the first word that equals the bytes.
pub fn word<T: Copy>(bytes: &[u8], words: &[(&[u8], T)]) -> Option<T>
    ensures { result ≡ spelled bytes.now words.now }
{
    let (_, value) = words.iter().find(|(word, _)| bytes == *word)?;
    Some(*value)
}
