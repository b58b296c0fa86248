// Values that have a short text.
ghost use Rattle.std.specs.Prelude.{◌≡◌, ℕ, List};

use arrayvec::ArrayString;

// A value that is written as a text of at most 64 bytes.
pub trait Text: Copy {
    // the bytes of its text
    ghost bytes: { Self → List ℕ };

    fn text(self) -> ArrayString<64>
        ensures { result.bytes ≡ bytes self };
}
