//! Calls of `value_core`.
use std::alloc::Global;
use std::cmp::Ordering;
use std::process::Abort;
use value_core::{Number, add, boolean_of, compare, number_of, sub, well_formed};

const DECIMAL: &str = "http://www.w3.org/2001/XMLSchema#decimal";

const INTEGER: &str = "http://www.w3.org/2001/XMLSchema#integer";

const BOOLEAN: &str = "http://www.w3.org/2001/XMLSchema#boolean";

const ONE: i128 = 1_000_000_000_000_000_000;

fn xsd(alloc: Global, rt: &impl Abort, name: &str) -> String {
    format!(in alloc; "http://www.w3.org/2001/XMLSchema#{name}").expect(rt, "memory")
}

fn has_forms(least: &str, greatest: &str, datatype: &str) -> bool {
    well_formed(least, datatype) && well_formed(greatest, datatype)
}

fn has_no_form(below: &str, above: &str, datatype: &str) -> bool {
    !well_formed(below, datatype) && !well_formed(above, datatype)
}

#[test]
fn each_integer_type_has_its_range(rt: HostRuntime) {
    // The type, its least and greatest forms, and the forms just outside.
    let table = [
        (
            "long",
            "-9223372036854775808",
            "9223372036854775807",
            "-9223372036854775809",
            "9223372036854775808",
        ),
        (
            "int",
            "-2147483648",
            "2147483647",
            "-2147483649",
            "2147483648",
        ),
        ("short", "-32768", "32767", "-32769", "32768"),
        ("byte", "-128", "127", "-129", "128"),
        (
            "unsignedLong",
            "-0",
            "18446744073709551615",
            "-1",
            "18446744073709551616",
        ),
        ("unsignedInt", "0", "4294967295", "-1", "4294967296"),
        ("unsignedShort", "+0", "65535", "-1", "65536"),
        ("unsignedByte", "000", "+255", "-1", "300"),
        (
            "nonPositiveInteger",
            "-1000000000000000000000000000000000000000",
            "0",
            "1.0",
            "1",
        ),
        (
            "negativeInteger",
            "-1000000000000000000000000000000000000000",
            "-1",
            "-",
            "0",
        ),
        (
            "nonNegativeInteger",
            "0",
            "1000000000000000000000000000000000000000",
            "-1",
            "",
        ),
        (
            "positiveInteger",
            "1",
            "1000000000000000000000000000000000000000",
            "0",
            "1 ",
        ),
        (
            "integer",
            "-1000000000000000000000000000000000000000",
            "1000000000000000000000000000000000000000",
            " 1",
            "1e0",
        ),
    ];
    for (name, least, greatest, below, above) in table {
        let datatype = xsd(rt.alloc(), &rt, name);
        assert!(rt; has_forms(least, greatest, datatype.as_str()), "{name}");
        assert!(rt; has_no_form(below, above, datatype.as_str()), "{name}");
    }
}

#[test]
fn a_decimal_has_a_value_where_it_is_whole_and_fits(rt: HostRuntime) {
    let table = [
        ("1.50", Some(3 * ONE / 2)),
        ("-.5", Some(-ONE / 2)),
        ("+7.", Some(7 * ONE)),
        (".", None),
        ("1.5e0", None),
        ("0.0000000000000000010", Some(1)),
        ("0.0000000000000000011", None),
        ("170141183460469231731.687303715884105727", Some(i128::MAX)),
        ("170141183460469231731.687303715884105728", None),
        ("-170141183460469231731.687303715884105728", Some(i128::MIN)),
        ("-170141183460469231731.687303715884105729", None),
        ("1000000000000000000000000000000000000000", None),
    ];
    for (form, scaled) in table {
        let number = number_of(form, DECIMAL);
        assert_eq!(rt; number.map(|n| n.scaled), scaled, "{form}");
        assert!(rt; number.is_none_or(|n| !n.whole));
    }
    assert!(rt; well_formed("0.0000000000000000011", DECIMAL));
    assert_eq!(rt; number_of("170141183460469231732", INTEGER), None);
}

#[test]
fn sums_keep_to_their_range(rt: HostRuntime) {
    let most = Number {
        scaled: i128::MAX,
        whole: false,
    };
    let two = number_of("2", INTEGER).expect(&rt, "a number");
    assert_eq!(rt; add(most, two), None);
    assert_eq!(rt;
        sub(two, two),
        Some(Number {
            scaled: 0,
            whole: true
        })
    );
    let half = number_of("0.5", DECIMAL).expect(&rt, "a number");
    assert_eq!(rt; add(two, half), number_of("2.5", DECIMAL));
    assert!(rt; compare(two, most) == Ordering::Less);
}

#[test]
fn booleans_have_four_forms(rt: HostRuntime) {
    assert_eq!(rt; boolean_of("true", BOOLEAN), Some(true));
    assert_eq!(rt; boolean_of("1", BOOLEAN), Some(true));
    assert_eq!(rt; boolean_of("false", BOOLEAN), Some(false));
    assert_eq!(rt; boolean_of("0", BOOLEAN), Some(false));
    assert_eq!(rt; boolean_of("TRUE", BOOLEAN), None);
    assert_eq!(rt; boolean_of("1", INTEGER), None);
    assert!(rt; !well_formed("2", BOOLEAN));
}
