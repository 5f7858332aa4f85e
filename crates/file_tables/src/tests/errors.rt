use elf_image::ImageErr;
use run_texts::{ConfigErr, Key, TextErr, TextWhy};
use std::test::Fail;

#[test]
fn errors_of_images_are_printed(rt: HostRuntime) -> Result<(), Fail> {
    let refused = ImageErr::Refused {
        number: 8,
        offset: 18,
    };
    let rows = [
        (refused, "refused at byte 18: Machine"),
        (ImageErr::Memory, "no memory is left"),
    ];
    for (error, want) in rows {
        let text = error.to_string(rt.alloc())?;
        assert_eq!(rt; text.as_str(), want);
    }
    Ok(())
}

#[test]
fn errors_of_scripts_are_printed(rt: HostRuntime) -> Result<(), Fail> {
    let rows = [
        (TextWhy::Word, "line 7: the first field is not known"),
        (TextWhy::Many, "line 7: there are too many flips"),
        (
            TextWhy::Count,
            "line 7: there are too few or too many fields",
        ),
        (TextWhy::Number, "line 7: a field is not of its form"),
        (TextWhy::Range, "line 7: a value is out of its range"),
    ];
    for (why, want) in rows {
        let text = TextErr::At { line: 7, why }.to_string(rt.alloc())?;
        assert_eq!(rt; text.as_str(), want);
    }
    let text = TextErr::Memory.to_string(rt.alloc())?;
    assert_eq!(rt; text.as_str(), "no memory is left");
    Ok(())
}

#[test]
fn errors_of_configurations_are_printed(rt: HostRuntime) -> Result<(), Fail> {
    let rows = [
        (ConfigErr::Text, "the text is no TOML document"),
        (ConfigErr::Key, "there is an unknown key"),
        (
            ConfigErr::Kind(Key::Ram),
            "the value of machine.ram is of another kind",
        ),
        (
            ConfigErr::Range(Key::LoadSets),
            "the value of dcache.sets is out of its range",
        ),
        (ConfigErr::Memory, "no memory is left"),
    ];
    for (error, want) in rows {
        let text = error.to_string(rt.alloc())?;
        assert_eq!(rt; text.as_str(), want);
    }
    Ok(())
}
