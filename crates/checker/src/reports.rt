// What is printed of a piece.
ghost use Rattle.std.specs.Prelude.{◌≡◌, ◌≤◌, true, length, is_some, IfSome};
ghost use Rattle.writer.specs.Puts.{put_at};
ghost use Rattle.writer.specs.Texts.{settings_text};
ghost use Rattle.checker.specs.Reports.{slice_lines_text, on_accepted, lines_of, piece_report};

use arrayvec::ArrayString;
use identity::snssai::Snssai;
use reader::requests::read_request;
use reader::settings::Capacities;
use reader::tables::read_settings;
use refusal::Refusal;
use writer::lines::{SettingsOk, SliceLine};
use writer::put::{put, put_text};
use writer::text::Text;

// The stores that settings are checked against.
const STORES: Capacities = Capacities {
    ues: 1024,
    sessions: 1024,
    subscriptions: 1024,
};

// What the text of a piece is.
#[derive(Clone, Copy, PartialEq, Eq, Debug)]
pub enum Kind {
    Settings,
    Request,
}

fn settings_line() -> ArrayString<128>
    ensures { result.bytes ≡ settings_text }
{
    let mut line = ArrayString::new();
    line.push_str(SettingsOk.text().as_str());
    line
}

fn slice_lines(slices: &[Snssai]) -> ArrayString<128>
    requires { length slices.now ≤ 8 }
    ensures { result.bytes ≡ slice_lines_text slices.now }
{
    let mut lines = ArrayString::new();
    for slice in slices {
        lines.push_str(SliceLine(*slice).text().as_str());
    }
    lines
}

impl Kind {
    // The report on a piece at the front of the buffer: 264 bytes are always enough.
    pub fn report(self, piece: &[u8], out: &mut [u8]) -> Option<usize>
        ensures writes { (result, out.new) ≡ put_at 0 (piece_report self piece.now) out.old }
        ensures within { IfSome result (λ n. n ≤ length out.old) }
        ensures fits { 264 ≤ length out.old → is_some result ≡ true }
    {
        match self.lines(piece) {
            Ok(lines) => put(out, 0, lines.as_str().as_bytes()),
            Err(refusal) => put_text(out, 0, refusal),
        }
    }

    // The lines for a piece that is accepted.
    fn lines(self, piece: &[u8]) -> Result<ArrayString<128>, Refusal>
        ensures { on_accepted (λ lines. lines.bytes) result ≡ lines_of self piece.now }
    {
        match self {
            Kind::Settings => {
                read_settings(piece, STORES)?;
                Ok(settings_line())
            }
            Kind::Request => {
                let request = read_request(piece)?;
                Ok(slice_lines(request.slices.as_slice()))
            }
        }
    }
}
