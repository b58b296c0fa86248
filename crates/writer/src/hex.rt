// An octet in upper-case hexadecimal digits.
ghost use Rattle.std.specs.Prelude.{◌≡◌, ◌+◌, ◌<◌, ◌≤◌, ◌++◌};
ghost use Rattle.arrayvec.specs.ArrayString.{array_string_len};
ghost use Rattle.writer.specs.Hexes.{hex_of, octet_text};

use arrayvec::ArrayString;

fn digit(nibble: u8) -> char
    requires { nibble < 16 }
    ensures { result ≡ hex_of nibble }
{
    if nibble < 10 {
        char::from(b'0' + nibble)
    } else {
        char::from(b'A' + (nibble - 10))
    }
}

// The two digits of an octet, after what the text has.
pub(crate) fn push_octet(text: &mut ArrayString<64>, octet: u8)
    requires { array_string_len text.old + 2 ≤ 64 }
    ensures { text.new.bytes ≡ text.old.bytes ++ octet_text octet }
{
    text.push(digit(octet / 16));
    text.push(digit(octet % 16));
}
