// What the numbers of a listing say, asked as another crate may ask it: of numbers that a listing has, and of larger ones.
ghost use Rattle.std.specs.Prelude.{◌≡◌};

use crate::state::Standing;
use rules::statements::{Kind, Operand};

// Behind the line of a function with three locations and an argument. Its clause is for those who add a line.
fn in_function() -> Standing
    ensures { (result.used ≡ 10) × (result.functions ≡ 1) }
{
    Standing::fresh().begun().function(3, 1)
}

// Behind main's line.
fn in_main() -> Standing {
    Standing::fresh().begun().main()
}

fn with_used(used: usize) -> Standing {
    Standing { used, ..in_main() }
}

#[test]
fn a_file_has_4096_bytes(rt: HostRuntime) {
    assert!(rt; with_used(3096).room(1000));
    assert!(rt; !with_used(3097).room(1000));
    assert!(rt; with_used(4096).room(0));
    assert!(rt; !with_used(4097).room(0));
    assert!(rt; !with_used(usize::MAX).room(1));
    let owing = Standing {
        owed: usize::MAX,
        ..in_main()
    };
    assert!(rt; !owing.room(0));
}

#[test]
fn statements_need_room_and_depth(rt: HostRuntime) {
    assert!(rt; with_used(4092).fits(Kind::While));
    assert!(rt; !with_used(4093).fits(Kind::While));
    let deepest = Standing {
        depth: 8,
        ..in_main()
    };
    assert!(rt; deepest.fits(Kind::Free));
    assert!(rt; !deepest.fits(Kind::If));
}

#[test]
fn places_are_those_of_the_function_or_all(rt: HostRuntime) {
    assert_eq!(rt; in_function().places(), 3);
    assert_eq!(rt; in_main().places(), 256);
    assert_eq!(rt; Standing::fresh().places(), 0);
    let far = Standing {
        callees: usize::MAX,
        ..in_function()
    };
    assert_eq!(rt; far.places(), 0);
}

#[test]
fn an_operand_has_at_most_256_words(rt: HostRuntime) {
    assert_eq!(rt; in_function().count(Operand::Location), 3);
    assert_eq!(rt; in_function().count(Operand::Callee), 0);
    assert_eq!(rt; in_main().count(Operand::Location), 256);
    let many = Standing {
        places: usize::MAX,
        callees: usize::MAX,
        ..in_main()
    };
    assert_eq!(rt; many.count(Operand::Location), 256);
    assert_eq!(rt; many.count(Operand::Callee), 256);
    assert!(rt; many.operand_begins(b"25", Kind::Init, 2, 0));
    assert!(rt; !many.operand_begins(b"256", Kind::Init, 2, 0));
}

#[test]
fn lines_go_on_where_each_operand_has_a_word(rt: HostRuntime) {
    let nowhere = Standing::fresh().begun().function(0, 0);
    assert!(rt; !nowhere.row_lives(Kind::Init));
    assert!(rt; !nowhere.rest_lives(Kind::Init, 2, 0));
    assert!(rt; !nowhere.rest_lives(Kind::Init, 0, 0));
    assert!(rt; nowhere.lives_behind(Kind::Init, 2, 0));
    assert!(rt; nowhere.lives_behind(Kind::Init, usize::MAX, 0));
    assert!(rt; nowhere.name_begins(b"fr"));
    assert!(rt; !nowhere.name_begins(b"init"));
    assert!(rt; nowhere.operand_begins(b"3", Kind::Free, 1, 0));
    assert!(rt; !nowhere.operand_begins(b"32", Kind::Free, 1, 0));
    assert!(rt; with_used(4094).statement_lives());
    assert!(rt; !with_used(4095).statement_lives());
}

#[test]
fn a_call_needs_places_for_its_locations(rt: HostRuntime) {
    let inner = in_function().function(0, 0);
    assert!(rt; !inner.call_lives(0));
    assert!(rt; inner.call_lives(1));
    assert!(rt; in_function().main().call_lives(0));
    assert!(rt; in_function().main().operand_begins(b"0", Kind::Call, 1, 0));
    assert!(rt; !inner.operand_begins(b"0", Kind::Call, 1, 0));
}
