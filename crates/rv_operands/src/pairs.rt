//! Lists of registers that come in pairs, as those of arguments and results do.

ghost use Rattle.std.specs.Prelude.{◌≡◌, map};
ghost use Rattle.rv_operands.specs.Visits.{IsHandedOver, AreHandedOver};
ghost use Rattle.rv_operands.specs.Operand.{constraint_of};
ghost use Rattle.rv_operands.specs.Operands.{arg_operand, ret_operand, use_operand, def_operand};
ghost use Rattle.rv_operands.specs.Shapes.{arg_shape, ret_shape, use_shape, def_shape};

use crate::visits::{reads_in, writes_anywhere, writes_in};
use rv_base::{
    ArgPair, CallArgPair, CallRetPair, List, OperandVisitor, OutOfMemory, RetLocation, RetPair,
};

/// A register that is handed over, and where its value comes from or goes to.
pub trait Pair: Copy {
    ghost use Rattle.rv_operands.specs.Operand.{Operand};

    /// The operand that it is.
    ghost operand: { Self → Operand };

    /// All of it but the register.
    ghost shape: { Self → Self };

    fn hand_over<V: OperandVisitor>(&mut self, collector: &mut V) -> Result<(), OutOfMemory>
        ensures handed { IsHandedOver V.recorded V.given result collector.old collector.new (constraint_of (operand self.old)) (constraint_of (operand self.new)) }
        ensures same { shape self.new ≡ shape self.old };
}

impl Pair for ArgPair {
    ghost operand = { arg_operand };

    ghost shape = { arg_shape };

    fn hand_over<V: OperandVisitor>(&mut self, collector: &mut V) -> Result<(), OutOfMemory> {
        writes_in(&mut self.vreg, self.preg, collector)
    }
}

impl Pair for RetPair {
    ghost operand = { ret_operand };

    ghost shape = { ret_shape };

    fn hand_over<V: OperandVisitor>(&mut self, collector: &mut V) -> Result<(), OutOfMemory> {
        reads_in(&mut self.vreg, self.preg, collector)
    }
}

impl Pair for CallArgPair {
    ghost operand = { use_operand };

    ghost shape = { use_shape };

    fn hand_over<V: OperandVisitor>(&mut self, collector: &mut V) -> Result<(), OutOfMemory> {
        reads_in(&mut self.vreg, self.preg, collector)
    }
}

impl Pair for CallRetPair {
    ghost operand = { def_operand };

    ghost shape = { def_shape };

    fn hand_over<V: OperandVisitor>(&mut self, collector: &mut V) -> Result<(), OutOfMemory> {
        match self.location {
            RetLocation::Reg(fixed) => writes_in(&mut self.vreg, fixed, collector),
            RetLocation::Stack { .. } => writes_anywhere(&mut self.vreg, collector),
        }
    }
}

/// Hands over each register of a list.
pub fn hand_all<P: Pair, V: OperandVisitor>(
    pairs: &mut List<P>,
    collector: &mut V,
) -> Result<(), OutOfMemory>
    ensures handed { AreHandedOver V.recorded V.given result collector.old collector.new (map constraint_of (map P.operand pairs.old)) (map constraint_of (map P.operand pairs.new)) }
    ensures same { map P.shape pairs.new ≡ map P.shape pairs.old }
{
    for index in 0..pairs.len() {
        let mut pair = pairs.get(index);
        pair.hand_over(collector)?;
        pairs.set(index, pair);
    }
    Ok(())
}
