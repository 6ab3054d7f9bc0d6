//! The least lengths of records, the types of elements, and values by their elements.

ghost use Rattle.std.specs.Prelude.{◌≤◌, length, IsTrue};
ghost use Rattle.ipfix_model.specs.Values.{AreNumbers};

use ipfix_model::elements::{AbstractType, abstract_type};
use ipfix_model::{
    FieldList, FieldSpec, FieldValue, Octets, Template, V4_FIELDS, V6_FIELDS, ValueList,
    are_values_of, number_of,
};
use std::test::Fail;

/// The least length of a record of these fields.
fn least_of(rt: &HostRuntime, fields: &[FieldSpec]) -> Result<u64, Fail>
    requires { length fields.now ≤ 65535 }
{
    let template = Template {
        id: 256,
        fields: FieldList::of(fields.to_vec(rt.alloc())?),
    };
    Ok(template.least())
}

#[test]
fn records_have_at_least_the_length_of_their_fields(rt: HostRuntime) -> Result<(), Fail> {
    let variable = FieldSpec {
        element: 82,
        length: 65_535,
        enterprise: None,
    };
    let longest = FieldSpec {
        element: 82,
        length: 65_534,
        enterprise: Some(29_305),
    };
    assert_eq!(rt; least_of(&rt, V4_FIELDS.as_slice())?, 48);
    assert_eq!(rt; least_of(&rt, V6_FIELDS.as_slice())?, 72);
    assert_eq!(rt;
        least_of(&rt, [variable, longest, variable].as_slice())?,
        65_536
    );
    assert_eq!(rt; least_of(&rt, &[])?, 0);
    Ok(())
}

#[test]
fn elements_have_the_types_of_the_registry(rt: HostRuntime) {
    for (element, wanted) in [
        (1, Some(AbstractType::Unsigned64)),
        (2, Some(AbstractType::Unsigned64)),
        (3, None),
        (4, Some(AbstractType::Unsigned8)),
        (6, Some(AbstractType::Unsigned16)),
        (7, Some(AbstractType::Unsigned16)),
        (8, Some(AbstractType::Ipv4Address)),
        (11, Some(AbstractType::Unsigned16)),
        (12, Some(AbstractType::Ipv4Address)),
        (27, Some(AbstractType::Ipv6Address)),
        (28, Some(AbstractType::Ipv6Address)),
        (136, Some(AbstractType::Unsigned8)),
        (152, Some(AbstractType::DateTimeMilliseconds)),
        (153, Some(AbstractType::DateTimeMilliseconds)),
        (154, None),
    ] {
        assert!(rt; abstract_type(element) == wanted, "element {element}");
    }
}

/// A value of this element with these bytes.
fn value(
    rt: &HostRuntime,
    element: u16,
    enterprise: Option<u32>,
    bytes: &[u8],
) -> Result<FieldValue, Fail> {
    Ok(FieldValue {
        element,
        enterprise,
        value: Octets::of(bytes.to_vec(rt.alloc())?),
    })
}

/// Whether the values have one to sixteen octets each.
fn are_numbers(values: &[FieldValue]) -> bool
    ensures { IsTrue result → AreNumbers values.now }
{
    for at in 0..values.len() {
        let octets = values[at].value.items().len();
        if octets < 1 || octets > 16 {
            return false;
        }
    }
    true
}

/// Four values of two octets each: one of the element 7, and three of the element 6, the first of them an enterprise's.
fn four_values(rt: &HostRuntime) -> Result<ValueList, Fail> {
    let mut values = Vec::new(rt.alloc());
    for (element, enterprise, bytes) in [
        (7, None, [15, 160]),
        (6, Some(29_305), [0, 18]),
        (6, None, [1, 2]),
        (6, None, [3, 4]),
    ] {
        values.push(value(rt, element, enterprise, bytes.as_slice())?)?;
    }
    Ok(ValueList::of(values))
}

#[test]
fn values_have_the_lengths_of_their_fields(rt: HostRuntime) -> Result<(), Fail> {
    let list = four_values(&rt)?;
    let field = |element, enterprise, length| FieldSpec {
        element,
        length,
        enterprise,
    };
    let fields = [
        field(7, None, 2),
        field(6, Some(29_305), 2),
        field(6, None, 2),
        field(6, None, 2),
    ];
    let mut wide = fields;
    wide[2].length = 3;
    assert!(rt; are_values_of(fields.as_slice(), list.items()));
    assert!(rt; !are_values_of(wide.as_slice(), list.items()));
    let (front, _) = fields.as_slice().split_at(3);
    assert!(rt; !are_values_of(front, list.items()));
    Ok(())
}

#[test]
fn values_are_found_by_their_elements(rt: HostRuntime) -> Result<(), Fail> {
    let list = four_values(&rt)?;
    let items = list.items();
    assert!(rt; are_numbers(items));
    assert!(rt; number_of(None, 7, items) == 4000);
    assert!(rt; number_of(Some(29_305), 6, items) == 18);
    // The first of two values of the element, not that of the enterprise's element with the same number.
    assert!(rt; number_of(None, 6, items) == 258);
    assert!(rt; number_of(Some(29_305), 7, items) == 0);
    assert!(rt; number_of(None, 11, items) == 0);
    Ok(())
}
