//! The registers of calls.

ghost use Rattle.std.specs.Prelude.{◌≡◌, [], ◌∷◌, ◌++◌, map};
ghost use Rattle.rv_base.specs.declared.constraint.Constraint.TheVariants.{RegUse, RegFixedUse, RegClobbers};
ghost use Rattle.rv_operands.specs.Visits.{AreHandedOver};
ghost use Rattle.rv_operands.specs.Operand.{constraint_of};
ghost use Rattle.rv_operands.specs.Operands.{use_operand, def_operand, fifth};
ghost use Rattle.rv_operands.specs.Shapes.{use_shape, def_shape, call_shape, call_through_shape, tail_call_through_shape};

use crate::pairs::hand_all;
use crate::visits::{clobbers, reads, reads_in};
use rv_base::{
    CallArgPair, CallInfo, CallRetPair, ExternalName, List, OperandVisitor, OutOfMemory, PRegSet,
    Reg, ReturnCallInfo, x_reg,
};

/// The arguments of a call, its results, and the registers that the callee may write.
fn passes<V: OperandVisitor>(
    uses: &mut List<CallArgPair>,
    defs: &mut List<CallRetPair>,
    overwritten: PRegSet,
    collector: &mut V,
) -> Result<(), OutOfMemory>
    ensures handed { AreHandedOver V.recorded V.given result collector.old collector.new (map constraint_of (map use_operand uses.old) ++ (map constraint_of (map def_operand defs.old) ++ RegClobbers overwritten ∷ [])) (map constraint_of (map use_operand uses.new) ++ (map constraint_of (map def_operand defs.new) ++ RegClobbers overwritten ∷ [])) }
    ensures same_uses { map use_shape uses.new ≡ map use_shape uses.old }
    ensures same_defs { map def_shape defs.new ≡ map def_shape defs.old }
{
    hand_all(uses, collector)?;
    hand_all(defs, collector)?;
    clobbers(overwritten, collector)
}

/// The registers of a call of a symbol.
pub fn calls<V: OperandVisitor>(
    info: &mut CallInfo<ExternalName>,
    collector: &mut V,
) -> Result<(), OutOfMemory>
    ensures handed { AreHandedOver V.recorded V.given result collector.old collector.new (map constraint_of (map use_operand info.old.uses) ++ (map constraint_of (map def_operand info.old.defs) ++ RegClobbers info.old.clobbers ∷ [])) (map constraint_of (map use_operand info.new.uses) ++ (map constraint_of (map def_operand info.new.defs) ++ RegClobbers info.new.clobbers ∷ [])) }
    ensures same { call_shape info.new ≡ call_shape info.old }
{
    let overwritten = info.clobbers;
    passes(&mut info.uses, &mut info.defs, overwritten, collector)
}

/// The registers of a call through a register, that one first.
pub fn calls_through<V: OperandVisitor>(
    info: &mut CallInfo<Reg>,
    collector: &mut V,
) -> Result<(), OutOfMemory>
    ensures handed { AreHandedOver V.recorded V.given result collector.old collector.new (RegUse info.old.dest ∷ (map constraint_of (map use_operand info.old.uses) ++ (map constraint_of (map def_operand info.old.defs) ++ RegClobbers info.old.clobbers ∷ []))) (RegUse info.new.dest ∷ (map constraint_of (map use_operand info.new.uses) ++ (map constraint_of (map def_operand info.new.defs) ++ RegClobbers info.new.clobbers ∷ []))) }
    ensures same { call_through_shape info.new ≡ call_through_shape info.old }
{
    reads(&mut info.dest, collector)?;
    let overwritten = info.clobbers;
    passes(&mut info.uses, &mut info.defs, overwritten, collector)
}

/// x5, `t0`, through which a tail call through a register goes.
fn fifth() -> Reg
    ensures { result ≡ fifth }
{
    x_reg(5)
}

/// The registers of a tail call through a register, that one first.
pub fn tail_calls_through<V: OperandVisitor>(
    info: &mut ReturnCallInfo<Reg>,
    collector: &mut V,
) -> Result<(), OutOfMemory>
    ensures handed { AreHandedOver V.recorded V.given result collector.old collector.new (RegFixedUse info.old.dest fifth ∷ map constraint_of (map use_operand info.old.uses)) (RegFixedUse info.new.dest fifth ∷ map constraint_of (map use_operand info.new.uses)) }
    ensures same { tail_call_through_shape info.new ≡ tail_call_through_shape info.old }
{
    let fixed = fifth();
    reads_in(&mut info.dest, fixed, collector)?;
    hand_all(&mut info.uses, collector)
}
