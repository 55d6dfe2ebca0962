//! What no clause says: which word is told to be wrong, and that memory is enough.
use crate::{
    Command, Expected, Misread, Transfer, command_of, folders_of, read_transfer, read_words,
    transfer_of,
};
use std::alloc::Global;
use std::test::Fail;

const NUMBER: Expected = Expected::Number {
    least: 1,
    greatest: 67_108_864,
};

const LANES: Expected = Expected::Number {
    least: 1,
    greatest: 16,
};

const BATCH: Expected = Expected::Number {
    least: 1,
    greatest: 1_073_741_824,
};

const SESSION: Expected = Expected::Number {
    least: 1,
    greatest: 9_223_372_036_854_775_807,
};

fn words_of(alloc: Global, texts: &[&str]) -> Result<Vec<String>, Fail> {
    let mut words = Vec::new(alloc);
    for text in texts {
        words.push(String::from_str(alloc, text)?)?;
    }
    Ok(words)
}

#[test]
fn the_first_wrong_word_is_told(rt: HostRuntime) -> Result<(), Fail> {
    let forms: [(&[&str], usize, Expected); 19] = [
        (&[], 0, Expected::Command),
        (&["copie", "SRC", "DST"], 3, Expected::Command),
        (&["rehearse"], 0, Expected::Source),
        (&["rehearse", "-SRC"], 1, Expected::Source),
        (&["rehearse", "SRC", "--lanes", "17"], 2, Expected::End),
        (&["rehearse", "SRC", "--block", "08"], 2, Expected::End),
        (&["plan"], 0, Expected::Source),
        (&["plan", "", "b"], 2, Expected::Source),
        (&["plan", "a"], 0, Expected::Dest),
        (&["plan", "a", "--block", "1"], 2, Expected::Dest),
        (&["plan", "a", "b", "c"], 1, Expected::Setting),
        (&["plan", "a", "b", "--block"], 0, NUMBER),
        (&["plan", "a", "b", "--block", "0"], 1, NUMBER),
        (&["plan", "a", "b", "--block", "08"], 1, NUMBER),
        (&["plan", "a", "b", "--block", "67108865"], 1, NUMBER),
        (
            &["plan", "a", "b", "--block", "1", "--block", "1"],
            2,
            Expected::Once,
        ),
        (
            &["plan", "a", "b", "--block", "1", "--lanes", "2"],
            2,
            Expected::Setting,
        ),
        (&["log"], 0, Expected::Dest),
        (&["log", "a", "b"], 1, Expected::End),
    ];
    for (texts, left, expected) in forms {
        let words = words_of(rt.alloc(), texts)?;
        assert_eq!(rt; read_words(&words), Err(Misread { left, expected }));
    }
    Ok(())
}

#[test]
fn the_first_wrong_word_of_a_copy_is_told(rt: HostRuntime) -> Result<(), Fail> {
    let forms: [(&[&str], usize, Expected); 9] = [
        (&["plan", "a", "b"], 3, Expected::Command),
        (&["copy"], 0, Expected::Source),
        (&["copy", "a", "--lanes"], 1, Expected::Dest),
        (&["copy", "a", "b", "--lanes"], 0, LANES),
        (&["copy", "a", "b", "--lanes", "17"], 1, LANES),
        (&["copy", "a", "b", "--batch", "1073741825"], 1, BATCH),
        (&["copy", "a", "b", "--lanes", "0"], 1, LANES),
        (
            &["copy", "a", "b", "--batch", "1", "--batch", "1"],
            2,
            Expected::Once,
        ),
        (&["copy", "a", "b", "--script"], 1, Expected::Setting),
    ];
    for (texts, left, expected) in forms {
        let words = words_of(rt.alloc(), texts)?;
        assert_eq!(rt; read_transfer(&words), Err(Misread { left, expected }));
    }
    Ok(())
}

#[test]
fn a_copy_has_lanes_of_its_own(rt: HostRuntime) -> Result<(), Fail> {
    let words = words_of(
        rt.alloc(),
        &["copy", "a", "b", "--batch", "1", "--lanes", "16"],
    )?;
    let (lanes, block, batch) = (16, 16_777_216, 1);
    assert_eq!(rt;
        transfer_of(&words),
        Some(Transfer::Copy {
            lanes,
            block,
            batch
        })
    );
    let words = words_of(rt.alloc(), &["copy", "a", "b"])?;
    let Some(named) = folders_of(rt.alloc(), &words)? else {
        return Err(Fail::new("the words are no form"));
    };
    assert_eq!(rt; named.dest.as_str(), "b");
    assert_eq!(rt; named.lanes, 4);
    Ok(())
}

#[test]
fn forms_name_their_folders(rt: HostRuntime) -> Result<(), Fail> {
    let block = 67_108_864;
    let words = words_of(rt.alloc(), &["plan", "a", "b", "--block", "67108864"])?;
    assert_eq!(rt; command_of(&words), Some(Command::Plan { block }));
    let Some(named) = folders_of(rt.alloc(), &words)? else {
        return Err(Fail::new("the words are no form"));
    };
    assert_eq!(rt; named.source.as_str(), "a");
    assert_eq!(rt; named.dest.as_str(), "b");
    Ok(())
}

#[test]
fn the_first_wrong_word_to_another_machine_is_told(rt: HostRuntime) -> Result<(), Fail> {
    let forms: [(&[&str], usize, Expected); 17] = [
        (&["sent", "a", "b"], 3, Expected::Command),
        (&["send"], 0, Expected::Source),
        (&["recv"], 0, Expected::Dest),
        (&["send", "--lanes", "4"], 2, Expected::Source),
        (&["send", "a"], 0, Expected::Host),
        (&["send", "a", "-h", "7000"], 2, Expected::Host),
        (&["send", "a", "h"], 0, Expected::Port),
        (&["send", "a", "h", "0"], 1, Expected::Port),
        (
            &["recv", "a", "h", "65521", "--lanes", "1"],
            3,
            Expected::Port,
        ),
        (&["recv", "a", "h", "07000"], 1, Expected::Port),
        (
            &["send", "a", "h", "7000", "--batch", "1"],
            2,
            Expected::Setting,
        ),
        (
            &["recv", "a", "h", "7000", "--block", "1"],
            2,
            Expected::Setting,
        ),
        (
            &["recv", "a", "h", "7000", "--session", "1"],
            2,
            Expected::Setting,
        ),
        (&["recv", "a", "h", "7000", "--lanes", "17"], 1, LANES),
        (&["send", "a", "h", "7000", "--session", "0"], 1, SESSION),
        (
            &["send", "a", "h", "7000", "--session", "9223372036854775808"],
            1,
            SESSION,
        ),
        (
            &["send", "a", "h", "1", "--lanes", "1", "--lanes", "1"],
            2,
            Expected::Once,
        ),
    ];
    for (texts, left, expected) in forms {
        let words = words_of(rt.alloc(), texts)?;
        assert_eq!(rt; read_transfer(&words), Err(Misread { left, expected }));
    }
    Ok(())
}

// What stands behind a name: the folders, the host, the port and the lanes.
fn named_in(alloc: Global, texts: &[&str]) -> Result<(String, String, String, u16, u8), Fail> {
    let words = words_of(alloc, texts)?;
    let Some(named) = folders_of(alloc, &words)? else {
        return Err(Fail::new("the words are no form"));
    };
    Ok((
        named.source,
        named.dest,
        named.host,
        named.port,
        named.lanes,
    ))
}

#[test]
fn forms_name_another_machine(rt: HostRuntime) -> Result<(), Fail> {
    let alloc = rt.alloc();
    let send = [
        "send",
        "a",
        "h",
        "65520",
        "--session",
        "9223372036854775807",
    ];
    let (port, lanes, block, session) = (65_520, 4, 16_777_216, 9_223_372_036_854_775_807);
    assert_eq!(rt;
        transfer_of(&words_of(alloc, &send)?),
        Some(Transfer::Send {
            port,
            lanes,
            block,
            session
        })
    );
    let (source, dest, host, port, lanes) = named_in(alloc, &send)?;
    assert_eq!(rt;
        (source.as_str(), dest.as_str(), host.as_str()),
        ("a", "", "h")
    );
    assert_eq!(rt; (port, lanes), (65_520, 4));
    let recv = ["recv", "b", "::", "1", "--batch", "9", "--lanes", "16"];
    let (port, lanes, batch) = (1, 16, 9);
    assert_eq!(rt;
        transfer_of(&words_of(alloc, &recv)?),
        Some(Transfer::Recv { port, lanes, batch })
    );
    let (source, dest, host, port, lanes) = named_in(alloc, &recv)?;
    assert_eq!(rt;
        (source.as_str(), dest.as_str(), host.as_str()),
        ("", "b", "::")
    );
    assert_eq!(rt; (port, lanes), (1, 16));
    Ok(())
}
