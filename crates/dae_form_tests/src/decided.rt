// Which processor decides a condition.

ghost use Rattle.std.specs.Prelude.{◌≡◌};

use dae_base::Side;
use dae_ir::{Class, Operand, Test};
use dae_meaning::Comparison;
use dae_slice::decider;

fn equal(left: Operand, right: Operand) -> Test
    ensures same { result.left ≡ left }
    ensures other { result.right ≡ right }
{
    Test {
        comparison: Comparison::Equal,
        left,
        right,
    }
}

#[test]
fn conditions_are_decided(rt: HostRuntime) {
    let classes = [
        Class { a: false, e: true },
        Class { a: true, e: false },
        Class { a: true, e: true },
    ];
    let first = equal(Operand::Variable(1), Operand::Variable(2));
    assert!(rt; decider(&first, &classes) == Side::A);
    let second = equal(Operand::Variable(1), Operand::Variable(0));
    assert!(rt; decider(&second, &classes) == Side::E);
    let third = equal(Operand::Number(1), Operand::Number(0));
    assert!(rt; decider(&third, &classes) == Side::A);
}
