use crate::refused::refused;
use arrayvec::ArrayString;
use identity::snssai::Snssai;
use reader::settings::{Block, Capacities};
use reader::tables::read_settings;
use reader::words::Counted;
use std::fmt;
use std::fmt::Write;
use std::test::Fail;

const LARGE: Capacities = Capacities {
    ues: 1_000_000,
    sessions: 1_000_000,
    subscriptions: 1_000_000,
};

// Stores for four UE entries, three sessions and two slices.
const SMALL: Capacities = Capacities {
    ues: 4,
    sessions: 3,
    subscriptions: 8,
};

#[test]
fn one_block(rt: HostRuntime) -> Result<(), Fail> {
    let slice = Snssai::new(1, 0xA1).ok_or("no slice")?;
    let text = "slice=01-0000A1\nue-max=20000\nue-entries=40000\npdu-max=40000\ncount=non-3gpp\n";
    let settings = read_settings(text.as_bytes(), LARGE)?;
    let [block] = settings.blocks.as_slice() else {
        return Err(Fail::new("not one block"));
    };
    assert_eq!(rt;
        *block,
        Block {
            slice,
            ue_max: 20000,
            ue_entries: 40000,
            pdu_max: 40000,
            counted: Counted::NonThreeGpp,
        }
    );
    Ok(())
}

#[test]
fn blocks_within_their_stores(rt: HostRuntime) -> Result<(), Fail> {
    let texts = [
        (
            "slice=01\nue-max=0\nue-entries=0\npdu-max=0\ncount=both\n",
            1,
        ),
        (
            "slice=01\nue-max=3\nue-entries=4\npdu-max=3\ncount=3gpp\n",
            1,
        ),
        (
            "slice=01\nue-max=2\nue-entries=2\npdu-max=1\ncount=3gpp\nslice=01-000000\nue-max=1\nue-entries=2\npdu-max=2\ncount=both\n",
            2,
        ),
    ];
    for (text, blocks) in texts {
        let settings = read_settings(text.as_bytes(), SMALL)?;
        assert_eq!(rt; settings.blocks.as_slice().len(), blocks, "{text:?}");
    }
    Ok(())
}

#[test]
fn a_line_that_is_missing(rt: HostRuntime) {
    let texts = [
        ("", 1),
        ("slice=01", 1),
        ("ue-max=1\n", 1),
        ("slice=01\n", 2),
        ("slice=01\nue-entries=1\n", 2),
        ("slice=01\nue-max=1\n\n", 3),
        ("slice=01\nue-max=1\nue-entries=1\ncount=3gpp\n", 4),
        ("slice=01\nue-max=1\nue-entries=1\npdu-max=1\n", 5),
        ("slice=01\nue-max=1\nue-entries=1\npdu-max=1\ncount=3gpp", 5),
        (
            "slice=01\nue-max=1\nue-entries=1\npdu-max=1\ncount=3gpp\n\n",
            6,
        ),
        (
            "slice=01\nue-max=1\nue-entries=1\npdu-max=1\ncount=3gpp\nslice=02\n",
            7,
        ),
    ];
    for (text, line) in texts {
        assert_eq!(rt;
            refused(read_settings(text.as_bytes(), LARGE)),
            Some((1, line)),
            "{text:?}"
        );
    }
}

#[test]
fn a_value_that_is_unlawful(rt: HostRuntime) {
    let texts = [
        ("slice=1\n", 1),
        ("slice=01\nue-max=20001\n", 2),
        ("slice=01\nue-max=01\n", 2),
        ("slice=01\nue-max=\n", 2),
        ("slice=01\nue-max=1\nue-entries=40001\n", 3),
        ("slice=01\nue-max=1\nue-entries=1\npdu-max=40001\n", 4),
        (
            "slice=01\nue-max=1\nue-entries=1\npdu-max=1\ncount=any\n",
            5,
        ),
        (
            "slice=01\nue-max=1\nue-entries=1\npdu-max=1\ncount=3gpp \n",
            5,
        ),
    ];
    for (text, line) in texts {
        assert_eq!(rt;
            refused(read_settings(text.as_bytes(), LARGE)),
            Some((2, line)),
            "{text:?}"
        );
    }
}

#[test]
fn a_slice_that_is_named_twice(rt: HostRuntime) {
    let text =
        "slice=01\nue-max=1\nue-entries=1\npdu-max=1\ncount=3gpp\nslice=01-FFFFFF\nue-max=1\n";
    assert_eq!(rt;
        refused(read_settings(text.as_bytes(), LARGE)),
        Some((8, 6))
    );
}

#[test]
fn too_few_entries(rt: HostRuntime) {
    let text = "slice=01\nue-max=3\nue-entries=2\n";
    assert_eq!(rt;
        refused(read_settings(text.as_bytes(), LARGE)),
        Some((9, 3))
    );
    // both below the maximum and beyond the store: the smaller number is given
    let text =
        "slice=01\nue-max=1\nue-entries=3\npdu-max=0\ncount=3gpp\nslice=02\nue-max=3\nue-entries=2\n";
    assert_eq!(rt;
        refused(read_settings(text.as_bytes(), SMALL)),
        Some((9, 8))
    );
}

#[test]
fn a_store_that_is_too_small(rt: HostRuntime) {
    let texts = [
        ("slice=01\nue-max=3\nue-entries=5\n", 3),
        ("slice=01\nue-max=3\nue-entries=4\npdu-max=4\n", 4),
        (
            "slice=01\nue-max=1\nue-entries=3\npdu-max=1\ncount=3gpp\nslice=02\nue-max=1\nue-entries=2\n",
            8,
        ),
        (
            "slice=01\nue-max=1\nue-entries=2\npdu-max=2\ncount=3gpp\nslice=02\nue-max=1\nue-entries=2\npdu-max=2\n",
            9,
        ),
        (
            "slice=01\nue-max=0\nue-entries=0\npdu-max=0\ncount=3gpp\nslice=02\nue-max=0\nue-entries=0\npdu-max=0\ncount=3gpp\nslice=03\n",
            11,
        ),
    ];
    for (text, line) in texts {
        assert_eq!(rt;
            refused(read_settings(text.as_bytes(), SMALL)),
            Some((10, line)),
            "{text:?}"
        );
    }
}

// Blocks of the slices 00, 01, .. with nothing reserved, and then a line.
fn many(blocks: usize, line: &str) -> Result<ArrayString<2048>, fmt::Error> {
    let mut text = ArrayString::new();
    for i in 0..blocks {
        write!(
            text,
            "slice={i:02}\nue-max=0\nue-entries=0\npdu-max=0\ncount=both\n"
        )?;
    }
    text.write_str(line)?;
    Ok(text)
}

#[test]
fn sixteen_blocks(rt: HostRuntime) -> Result<(), Fail> {
    let settings = read_settings(many(16, "")?.as_str().as_bytes(), LARGE)?;
    assert_eq!(rt; settings.blocks.as_slice().len(), 16);
    Ok(())
}

#[test]
fn a_seventeenth_block(rt: HostRuntime) -> Result<(), Fail> {
    let texts = [
        (17, "", 3),
        (16, "slice=00\n", 3),
        (16, "slice=0\n", 2),
        (16, "ue-max=0\n", 1),
    ];
    for (blocks, line, number) in texts {
        let text = many(blocks, line)?;
        let read = read_settings(text.as_str().as_bytes(), LARGE);
        assert_eq!(rt; refused(read), Some((number, 81)), "{line:?}");
    }
    Ok(())
}
