// The script of a size.
ghost use Rattle.std.specs.Prelude.{◌≡◌, ◌≤◌, ◌<◌, ◌++◌, IfOk, OnOk};
ghost use Rattle.mt_protocol.specs.Scripts.{enclosed, eq_line, nat_line, plus_line, prelude, quantified, raised, raised_argument, script, theorem_head, theorem_on, theorem_sides, theorems};

use crate::putting::{put, put_number};
use mt_term::{Name, OutOfMemory};
use std::alloc::Global;

/// The script of a size: three declarations, and as many theorems on sums of numerals.
#[tactic(auto, unfolding(crate::specs::Scripts::script))]
pub fn generated(alloc: Global, size: usize) -> Result<Name, OutOfMemory>
    requires least { 1 ≤ size }
    requires most { size ≤ 1000 }
    ensures { IfOk result (λ name. name ≡ script size) }
{
    let mut out = Vec::new(alloc);
    put_prelude(&mut out)?;
    put_theorems(alloc, &mut out, size)?;
    Ok(Name::from_vec(out))
}

#[tactic(auto, unfolding(crate::specs::Scripts::prelude, crate::specs::Scripts::nat_line, crate::specs::Scripts::eq_line, crate::specs::Scripts::plus_line))]
fn put_prelude(out: &mut Vec<u8>) -> Result<(), OutOfMemory>
    ensures { OnOk result (out.new.items ≡ out.old.items ++ prelude) }
{
    put(out, nat_line())?;
    put(out, eq_line())?;
    put(out, plus_line())
}

#[tactic(auto, unfolding(crate::specs::Scripts::nat_line))]
fn nat_line() -> &'static [u8]
    ensures { result.now ≡ nat_line }
{
    b"inductive nat : Type[0] \xe2\x89\x9d O : nat | S : nat \xe2\x86\x92 nat.\n"
}

#[tactic(auto, unfolding(crate::specs::Scripts::eq_line))]
fn eq_line() -> &'static [u8]
    ensures { result.now ≡ eq_line }
{
    b"inductive eq (A:Type[0]) (x:A) : A \xe2\x86\x92 Prop \xe2\x89\x9d refl : eq A x x.\n"
}

#[tactic(auto, unfolding(crate::specs::Scripts::plus_line))]
fn plus_line() -> &'static [u8]
    ensures { result.now ≡ plus_line }
{
    b"let rec plus (n:nat) (m:nat) on n : nat \xe2\x89\x9d match n with [ O \xe2\x87\x92 m | S p \xe2\x87\x92 S (plus p m) ].\n"
}

fn put_theorems(alloc: Global, out: &mut Vec<u8>, size: usize) -> Result<(), OutOfMemory>
    ensures { OnOk result (out.new.items ≡ out.old.items ++ theorems size) }
{
    for i in 0..size {
        put_theorem(alloc, out, i, i % 10)?;
    }
    Ok(())
}

// The theorem of a number, on k and a variable.
#[tactic(auto, unfolding(crate::specs::Scripts::theorem_on))]
fn put_theorem(alloc: Global, out: &mut Vec<u8>, i: usize, k: usize) -> Result<(), OutOfMemory>
    requires { k < 10 }
    ensures { OnOk result (out.new.items ≡ out.old.items ++ theorem_on i k) }
{
    put_head(alloc, out, i)?;
    put_sides(out, k)?;
    put(out, b". #n; @refl. qed.\n")
}

#[tactic(auto, unfolding(crate::specs::Scripts::theorem_head))]
fn put_head(alloc: Global, out: &mut Vec<u8>, i: usize) -> Result<(), OutOfMemory>
    ensures { OnOk result (out.new.items ≡ out.old.items ++ theorem_head i) }
{
    put(out, b"theorem t")?;
    put_number(alloc, out, i as u64)?;
    put(out, quantified())
}

#[tactic(auto, unfolding(crate::specs::Scripts::quantified))]
fn quantified() -> &'static [u8]
    ensures { result.now ≡ quantified }
{
    b" : \xe2\x88\x80n:nat.eq nat (plus "
}

#[tactic(auto, unfolding(crate::specs::Scripts::theorem_sides))]
fn put_sides(out: &mut Vec<u8>, k: usize) -> Result<(), OutOfMemory>
    ensures { OnOk result (out.new.items ≡ out.old.items ++ theorem_sides k) }
{
    put_argument(out, k, b"O")?;
    put(out, b" n) ")?;
    put_argument(out, k, b"n")
}

// k times `S` on a name, as an argument.
#[tactic(auto, using(crate::proofs::Raising::argument_more))]
fn put_argument(out: &mut Vec<u8>, k: usize, name: &[u8]) -> Result<(), OutOfMemory>
    ensures { OnOk result (out.new.items ≡ out.old.items ++ raised_argument k name.now) }
{
    if k == 0 {
        return put(out, name);
    }
    put(out, b"(")?;
    put_raised(out, k, name)?;
    put(out, b")")
}

// k times `S` on a name.
#[tactic(auto, using(crate::proofs::Raising::raised_more))]
fn put_raised(out: &mut Vec<u8>, k: usize, name: &[u8]) -> Result<(), OutOfMemory>
    ensures { OnOk result (out.new.items ≡ out.old.items ++ raised k name.now) }
{
    if k == 0 {
        return put(out, name);
    }
    if k == 1 {
        put(out, b"S ")?;
        return put(out, name);
    }
    put(out, b"S (")?;
    put_raised(out, k - 1, name)?;
    put(out, b")")
}
