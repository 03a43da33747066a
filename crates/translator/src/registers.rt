// Which register holds which value (01, Register program, 9). What a place says counts only if the owner agrees.
ghost use Rattle.std.specs.Prelude.{◌≡◌, true, false, List, ℕ, suc, ◌+◌, ◌-◌, ◌<◌, ◌≤◌, ◌++◌, [], ◌∷◌, length, replicate, set, get_or};
ghost use Rattle.circuit.specs.Circuit.{max_references};
ghost use Rattle.circuit.specs.Path.{is_among};
ghost use Rattle.translator.specs.Machine.{Instruction, max_registers};
ghost use Rattle.translator.specs.Allocation.{register_of, next_register, assign, release};
ghost use Rattle.translator.specs.RegisterArrays.{RegisterArrays};

use crate::MAX_REGISTERS;
use circuit::checked::MAX_REFERENCES;

// `owner` says for each register 0 or 1 more than the reference whose value it holds, as `Allocation` of the specs does: with an Option
// there, every law would say besides how one becomes the other. The first `free` of `freed` are a stack of the free registers among the
// first `fresh`, which are those ever used, and `place` spares the search for a value's register. The arrays are lent, since beside arrays of
// its own, which are read at any index, the struct's two counts would be kept in memory as well.
#[derive(Drop)]
pub struct Registers<'a> {
    pub owner: &'a mut [u16; MAX_REGISTERS],
    pub freed: &'a mut [u16; MAX_REGISTERS],
    pub free: usize,
    pub fresh: usize,
    pub place: &'a mut [u16; MAX_REFERENCES],
    pub ghost arrays: { RegisterArrays owner.now freed.now place.now free fresh },
}

impl<'a> Registers<'a> {
    ghost use Rattle.translator.specs.Registers.{owners_of, freed_of, allocation_with};

    // Nothing is in any register, and none was ever used.
    pub fn new(
        owner: &'a mut [u16; MAX_REGISTERS],
        freed: &'a mut [u16; MAX_REGISTERS],
        place: &'a mut [u16; MAX_REFERENCES],
    ) -> Self
        requires owner_empty { owner.old ≡ replicate max_registers 0 }
        requires freed_empty { freed.old ≡ replicate max_registers 0 }
        requires place_empty { place.old ≡ replicate max_references 0 }
        ensures { (code : List Instruction) → allocation_with result code ≡ record { owners = []; freed = []; code = code } }
    {
        Registers {
            owner,
            freed,
            free: 0,
            fresh: 0,
            place,
        }
    }

    // Whether v is in a register.
    pub fn holds(&self, v: usize) -> bool
        requires { v < max_references }
        ensures { result ≡ is_among (suc v) (owners_of self.now) }
    {
        let owner = &*self.owner;
        let place = &*self.place;
        owner[place[v] as usize] == v as u16 + 1
    }

    // The register of v, which is in one.
    pub fn register_of(&self, v: usize) -> u16
        requires v_lt_max_references { v < max_references }
        requires held { is_among (suc v) (owners_of self.now) ≡ true }
        ensures { result ≡ register_of (owners_of self.now) v }
    {
        let place = &*self.place;
        place[v]
    }

    // v, which is in no register, is put into d, which was used before.
    fn put(&mut self, v: usize, d: u16) -> u16
        requires v_lt_max_references { v < max_references }
        requires absent { is_among (suc v) (owners_of self.old) ≡ false }
        requires used { d < self.old.fresh }
        ensures value { result ≡ d }
        ensures owner { self.new.owner.now ≡ set self.old.owner.now d (suc v) }
        ensures freed { self.new.freed.now ≡ self.old.freed.now }
        ensures free { self.new.free ≡ self.old.free }
        ensures fresh { self.new.fresh ≡ self.old.fresh }
    {
        self.owner[d as usize] = v as u16 + 1;
        self.place[v] = d;
        d
    }

    // v, which is in no register, takes the register freed last, or else the lowest never used.
    pub fn take(&mut self, v: usize) -> u16
        requires v_lt_max_references { v < max_references }
        requires absent { is_among (suc v) (owners_of self.old) ≡ false }
        requires next_lt_max_registers { next_register (owners_of self.old) (freed_of self.old) < max_registers }
        ensures { (make : ℕ → Instruction) (code : List Instruction) → allocation_with self.new (code ++ make result ∷ [])
            ≡ assign v make (allocation_with self.old code) }
    {
        if self.free == 0 {
            let d = self.fresh as u16;
            self.fresh += 1;
            return self.put(v, d);
        }
        self.free -= 1;
        let d = self.freed[self.free];
        self.put(v, d)
    }

    // The register of v is free from now on, unless v is to be kept.
    pub fn release(&mut self, keep: bool, v: usize)
        requires v_lt_max_references { v < max_references }
        requires held { is_among (suc v) (owners_of self.old) ≡ true }
        requires free_lt_max_registers { keep ≡ false → length (freed_of self.old) < max_registers }
        ensures { (code : List Instruction) → allocation_with self.new code ≡ release keep v (allocation_with self.old code) }
    {
        if keep {
            return;
        }
        let d = self.place[v];
        self.owner[d as usize] = 0;
        self.freed[self.free] = d;
        self.free += 1;
    }
}
