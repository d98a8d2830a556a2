//! Values grouped by numbers.

ghost use Rattle.std.specs.Prelude.{◌<◌, length};

use super::same;
use mrp_bill::{Grouped, Numbered};

#[test]
fn a_group_has_its_values_in_the_order_in_which_they_came(rt: HostRuntime) {
    let rows = [
        Numbered {
            number: 2,
            value: b'a',
        },
        Numbered {
            number: 0,
            value: b'b',
        },
        Numbered {
            number: 2,
            value: b'c',
        },
        Numbered {
            number: 0,
            value: b'd',
        },
    ];
    let groups = Grouped::of(rt.alloc(), 3, &rows).expect(&rt, "memory");
    same(&rt, groups.count(), 3);
    same(&rt, groups.group(0), b"bd".as_slice());
    same(&rt, groups.group(1), b"".as_slice());
    same(&rt, groups.group(2), b"ac".as_slice());
    same(&rt, groups.into_values().as_slice(), b"bdac".as_slice());
}
