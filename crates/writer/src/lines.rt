// The texts that an answer is made of.
ghost use Rattle.std.specs.Prelude.{◌≡◌, Some};
ghost use Rattle.identity.specs.Slices.{slice_of};
ghost use Rattle.writer.specs.Hexes.{long_text};
ghost use Rattle.writer.specs.Texts.{text_of_refusal, text_of_slice, settings_text};

use crate::hex::push_octet;
use crate::text::Text;
use arrayvec::ArrayString;
use identity::snssai::Snssai;
use itoa::Buffer;
use refusal::Refusal;

// The long form of a slice, from which the same slice is read again.
impl Text for Snssai {
    ghost bytes = { long_text };

    #[tactic(auto, using(crate::proofs::Backs::long_back))]
    fn text(self) -> ArrayString<64>
        ensures writes { result.bytes ≡ long_text self }
        ensures back { slice_of (long_text self) ≡ Some self }
    {
        let [_, high, middle, low] = self.sd.to_be_bytes();
        let mut text = ArrayString::new();
        push_octet(&mut text, self.sst);
        text.push('-');
        push_octet(&mut text, high);
        push_octet(&mut text, middle);
        push_octet(&mut text, low);
        text
    }
}

// The line that names a slice.
#[derive(Clone, Copy, PartialEq, Eq, Debug)]
pub struct SliceLine(pub Snssai);

impl Text for SliceLine {
    ghost bytes = { λ l. text_of_slice l.0 };

    fn text(self) -> ArrayString<64> {
        let mut text = ArrayString::new();
        text.push_str("slice=");
        text.push_str(self.0.text().as_str());
        text.push_str("\n");
        text
    }
}

// The two lines of a refusal.
impl Text for Refusal {
    ghost bytes = { text_of_refusal };

    fn text(self) -> ArrayString<64> {
        let mut digits = Buffer::new();
        let mut text = ArrayString::new();
        text.push_str("refusal=");
        text.push_str(digits.format(self.reason.number()));
        text.push_str("\nline=");
        text.push_str(digits.format(self.line));
        text.push_str("\n");
        text
    }
}

// The line for settings that were accepted.
#[derive(Clone, Copy, PartialEq, Eq, Debug)]
pub struct SettingsOk;

impl Text for SettingsOk {
    ghost bytes = { λ _. settings_text };

    fn text(self) -> ArrayString<64> {
        let mut text = ArrayString::new();
        text.push_str("settings=ok\n");
        text
    }
}
