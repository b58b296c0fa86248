use crate::refused::refused;
use identity::access::Access;
use identity::supi::Supi;
use reader::request::Call;
use reader::requests::read_request;
use reader::words::{PduFlag, UeFlag};
use std::process::Abort;
use std::test::Fail;

fn accepted(
    rt: &impl Abort,
    text: &str,
    call: Call,
    access: Access,
    slices: usize,
) -> Result<(), Fail> {
    let request = read_request(text.as_bytes())?;
    assert_eq!(rt; request.call, call);
    assert_eq!(rt; Some(request.ue), Supi::new(b"00101001"));
    assert_eq!(rt; request.access, access);
    assert_eq!(rt; request.slices.as_slice().len(), slices);
    Ok(())
}

#[test]
fn calls_for_a_ue(rt: HostRuntime) -> Result<(), Fail> {
    let most = Call::Ue {
        flag: UeFlag::Increase,
        nf: 65535,
    };
    let text = "op=ue\nflag=increase\nue=imsi-00101001\nnf=65535\naccess=3gpp\nslice=01\n";
    accepted(&rt, text, most, Access::ThreeGpp, 1)?;
    let least = Call::Ue {
        flag: UeFlag::Decrease,
        nf: 0,
    };
    let text =
        "op=ue\nflag=decrease\nue=imsi-00101001\nnf=0\naccess=3gpp\nslice=01\nslice=02\nslice=03\nslice=04\nslice=05\nslice=06\nslice=07\nslice=08\n";
    accepted(&rt, text, least, Access::ThreeGpp, 8)
}

#[test]
fn a_call_for_a_session(rt: HostRuntime) -> Result<(), Fail> {
    let call = Call::Pdu {
        flag: PduFlag::Update,
        session: 255,
    };
    let text =
        "op=pdu\nflag=update\nue=imsi-00101001\nsession=255\naccess=non-3gpp\nslice=01\nslice=01\n";
    accepted(&rt, text, call, Access::NonThreeGpp, 2)
}

#[test]
fn a_line_that_is_missing(rt: HostRuntime) {
    let texts = [
        ("", 1),
        ("\n", 1),
        ("op=ue", 1),
        ("OP=ue\n", 1),
        ("op ue\n", 1),
        (" op=ue\n", 1),
        ("op=ue\n", 2),
        ("op=ue\nue=imsi-00101001\n", 2),
        ("op=ue\nflag=increase\n", 3),
        ("op=ue\nflag=increase\nue=imsi-00101001\nsession=1\n", 4),
        ("op=pdu\nflag=increase\nue=imsi-00101001\nnf=1\n", 4),
        ("op=ue\nflag=increase\nue=imsi-00101001\nnf=1\n", 5),
        (
            "op=ue\nflag=increase\nue=imsi-00101001\nnf=1\naccess=3gpp\n",
            6,
        ),
        (
            "op=ue\nflag=increase\nue=imsi-00101001\nnf=1\naccess=3gpp\nslice=01",
            6,
        ),
        (
            "op=ue\nflag=increase\nue=imsi-00101001\nnf=1\naccess=3gpp\nslice=01\n\n",
            7,
        ),
        (
            "op=ue\nflag=increase\nue=imsi-00101001\nnf=1\naccess=3gpp\nslice=01\nslice=02",
            7,
        ),
    ];
    for (text, line) in texts {
        assert_eq!(rt;
            refused(read_request(text.as_bytes())),
            Some((1, line)),
            "{text:?}"
        );
    }
}

#[test]
fn a_value_that_is_unlawful(rt: HostRuntime) {
    let texts = [
        ("op=\n", 1),
        ("op=UE\n", 1),
        ("op=ue\r\n", 1),
        ("op= ue\n", 1),
        ("op=ue\nflag=update\n", 2),
        ("op=pdu\nflag=remove\n", 2),
        ("op=ue\nflag=increase\nue=imsi-0010\n", 3),
        ("op=ue\nflag=increase\nue=imsi-1234567890123456\n", 3),
        ("op=ue\nflag=increase\nue=imsi-00101001\nnf=07\n", 4),
        ("op=ue\nflag=increase\nue=imsi-00101001\nnf=65536\n", 4),
        ("op=pdu\nflag=increase\nue=imsi-00101001\nsession=256\n", 4),
        (
            "op=ue\nflag=increase\nue=imsi-00101001\nnf=1\naccess=both\n",
            5,
        ),
        (
            "op=ue\nflag=increase\nue=imsi-00101001\nnf=1\naccess=3gpp\nslice=0a\n",
            6,
        ),
        (
            "op=ue\nflag=increase\nue=imsi-00101001\nnf=1\naccess=3gpp\nslice=01\nslice=1\n",
            7,
        ),
        (
            "op=ue\nflag=increase\nue=imsi-00101001\nnf=1\0\naccess=3gpp\nslice=01\n",
            4,
        ),
    ];
    for (text, line) in texts {
        assert_eq!(rt;
            refused(read_request(text.as_bytes())),
            Some((2, line)),
            "{text:?}"
        );
    }
}

#[test]
fn a_ninth_slice_line(rt: HostRuntime) {
    let texts = [
        (
            "op=ue\nflag=increase\nue=imsi-00101001\nnf=1\naccess=3gpp\nslice=01\nslice=01\nslice=01\nslice=01\nslice=01\nslice=01\nslice=01\nslice=01\nslice=01\n",
            3,
        ),
        (
            "op=ue\nflag=increase\nue=imsi-00101001\nnf=1\naccess=3gpp\nslice=01\nslice=01\nslice=01\nslice=01\nslice=01\nslice=01\nslice=01\nslice=01\nslice=1\n",
            2,
        ),
        (
            "op=ue\nflag=increase\nue=imsi-00101001\nnf=1\naccess=3gpp\nslice=01\nslice=01\nslice=01\nslice=01\nslice=01\nslice=01\nslice=01\nslice=01\nnf=1\n",
            1,
        ),
        (
            "op=ue\nflag=increase\nue=imsi-00101001\nnf=1\naccess=3gpp\nslice=01\nslice=01\nslice=01\nslice=01\nslice=01\nslice=01\nslice=01\nslice=01\nslice=01",
            1,
        ),
    ];
    for (text, number) in texts {
        assert_eq!(rt;
            refused(read_request(text.as_bytes())),
            Some((number, 14)),
            "{text:?}"
        );
    }
}
