// What the value of a line may be.
ghost use Rattle.std.specs.Prelude.{◌≡◌, ℕ, List, Option};

pub trait Value: Copy {
    // what bytes write, or nothing where they are not lawful
    ghost written: { List ℕ → Option Self };

    fn read(bytes: &[u8]) -> Option<Self>
        ensures { result ≡ written bytes.now };
}
