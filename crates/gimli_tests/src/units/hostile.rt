use crate::samples::{Part, Table, encoding, part, table_of};
use crate::units::samples::{pass, raw_in, read, specification};
use gimli_base::{DwForm, Error, LittleEndian};
use std::process::Abort;
use std::test::Fail;

/// Whether a code is that of a form.
pub(crate) fn is_form(code: u16) -> bool {
    let is_extension = matches!(code, 0x1f01 | 0x1f02 | 0x1f20 | 0x1f21 | 0x3f01);
    is_extension || matches!(code, 0x01 | 0x03..=0x2c)
}

// Tries a code that is no form, directly and through indirect, by its LEB128 number.
fn tries_unknown_form(rt: &impl Abort, table: &Table, form: u16, code: Part<'_>) {
    let refused = Some(Error::UnknownForm(DwForm(form)));
    for declared in [form, 0x16] {
        let given = specification(rt, 0x2000, declared);
        let answer = read(&mut raw_in(encoding(4, 4), code, table), given);
        assert_eq!(rt; answer.err(), refused, "{form}");
        let answer = pass(&mut raw_in(encoding(4, 4), code, table), &[given]);
        assert_eq!(rt; answer.err(), refused, "{form}");
    }
}

// The LEB128 number of a code in three bytes.
fn leb128(code: u16) -> [u8; 3] {
    let [high, low] = code.to_be_bytes();
    // seven bits a byte, the lowest first
    let middle = (high & 0x3f) << 1 | low >> 7;
    [low | 0x80, middle | 0x80, high >> 6]
}

#[test]
fn refuses_each_code_that_is_no_form(rt: HostRuntime) -> Result<(), Fail> {
    let table = table_of(rt.alloc(), &[0])?;
    for form in 0..=0xffff {
        if !is_form(form) {
            let code = leb128(form);
            tries_unknown_form(&rt, &table, form, part(&code, LittleEndian));
        }
    }
    Ok(())
}
