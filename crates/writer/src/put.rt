// Writing at a place of a lent buffer.
ghost use Rattle.std.specs.Prelude.{◌≡◌, ◌+◌, ◌≤◌, true, length, is_some};
ghost use Rattle.writer.specs.Puts.{put_at};

use crate::text::Text;

// Where what is written ends, or nothing where it does not fit, and then nothing is written.
pub fn put(out: &mut [u8], at: usize, bytes: &[u8]) -> Option<usize>
    ensures { (result, out.new) ≡ put_at at bytes.now out.old }
{
    let end = at.checked_add(bytes.len())?;
    if end > out.len() {
        return None;
    }
    out[at..end].copy_from_slice(bytes);
    Some(end)
}

// The same for the text of a value, for which 64 bytes are always enough.
pub fn put_text<T: Text>(out: &mut [u8], at: usize, item: T) -> Option<usize>
    ensures writes { (result, out.new) ≡ put_at at (T.bytes item) out.old }
    ensures fits { at + 64 ≤ length out.old → is_some result ≡ true }
{
    put(out, at, item.text().as_str().as_bytes())
}
