use checker::pieces::Pieces;
use checker::reports::Kind;
use identity::snssai::Snssai;
use refusal::Reason;
use std::process::Abort;
use std::test::Fail;
use writer::lines::{SettingsOk, SliceLine};
use writer::put::put_text;

#[test]
fn a_slice_is_written_in_its_long_form(rt: HostRuntime) -> Result<(), Fail> {
    let slice = Snssai::new(0x9A, 0xFF_FFFF).ok_or("no slice")?;
    let mut out = [b'.'; 12];
    assert_eq!(rt; put_text(&mut out, 1, slice), Some(10));
    assert_eq!(rt; out, *b".9A-FFFFFF..");
    assert_eq!(rt; put_text(&mut out, 4, slice), None);
    assert_eq!(rt; out, *b".9A-FFFFFF..");
    Ok(())
}

#[test]
fn a_slice_line(rt: HostRuntime) -> Result<(), Fail> {
    let slice = Snssai::new(1, 0x01_23EF).ok_or("no slice")?;
    let mut out = [b'.'; 17];
    assert_eq!(rt; put_text(&mut out, 0, SliceLine(slice)), Some(16));
    assert_eq!(rt; out, *b"slice=01-0123EF\n.");
    Ok(())
}

#[test]
fn refusal_lines(rt: HostRuntime) {
    let mut out = [b'.'; 18];
    assert_eq!(rt;
        put_text(&mut out, 0, Reason::UnlawfulValue.at(2)),
        Some(17)
    );
    assert_eq!(rt; out, *b"refusal=2\nline=2\n.");
    assert_eq!(rt; put_text(&mut out, 0, Reason::StoreFull.at(0)), Some(18));
    assert_eq!(rt; out, *b"refusal=16\nline=0\n");
    assert_eq!(rt; put_text(&mut out, 0, Reason::StoreTooSmall.at(10)), None);
    assert_eq!(rt; out, *b"refusal=16\nline=0\n");
}

#[test]
fn accepted_settings(rt: HostRuntime) {
    let mut out = [b'.'; 13];
    assert_eq!(rt; put_text(&mut out, 0, SettingsOk), Some(12));
    assert_eq!(rt; out, *b"settings=ok\n.");
    assert_eq!(rt; put_text(&mut out, 2, SettingsOk), None);
}

fn cut(rt: &impl Abort, input: &str, expected: &[&str]) {
    let mut pieces = Pieces::new(input.as_bytes());
    for piece in expected {
        assert_eq!(rt; pieces.next(), Some(piece.as_bytes()), "{input:?}");
    }
    assert_eq!(rt; pieces.next(), None, "{input:?}");
    assert_eq!(rt; pieces.next(), None, "{input:?}");
}

#[test]
fn an_empty_line_ends_a_piece(rt: HostRuntime) {
    cut(&rt, "a\nb\n\nc\n\n\nd", &["a\nb\n", "c\n", "", "d"]);
}

#[test]
fn the_end_ends_a_piece_that_has_bytes(rt: HostRuntime) {
    cut(&rt, "", &[]);
    cut(&rt, "a\n\n", &["a\n"]);
    cut(&rt, "\n\n", &["", ""]);
}

#[test]
fn reports(rt: HostRuntime) {
    let mut out = [b'.'; 33];
    let settings = b"slice=01\nue-max=1\nue-entries=1024\npdu-max=1024\ncount=both\n";
    assert_eq!(rt; Kind::Settings.report(settings, &mut out), Some(12));
    assert!(rt; &out[0..13] == b"settings=ok\n.".as_slice());
    let request =
        b"op=pdu\nflag=increase\nue=imsi-00101001\nsession=5\naccess=3gpp\nslice=01\nslice=0A-00000B\n";
    assert_eq!(rt; Kind::Request.report(request, &mut out), Some(32));
    assert!(rt; &out[0..32] == b"slice=01-FFFFFF\nslice=0A-00000B\n".as_slice());
    assert_eq!(rt; Kind::Settings.report(request, &mut out), Some(17));
    assert!(rt; &out[0..17] == b"refusal=1\nline=1\n".as_slice());
}
