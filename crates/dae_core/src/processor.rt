// A processor: its registers, counter and private memory, and what one step of it does.

ghost use Rattle.std.specs.Prelude.{◌≡◌, ◌≢◌, ℕ, ◌<◌, ◌^◌, Bool, true, false, length, slice_index, Option, None, is_some, IfOk, IfErr, IfSome, Some, [], option_map, slice_get, if◌then◌else◌};
ghost use Rattle.dae_base.specs.Words.{plus, stored, loaded, width_of};
ghost use Rattle.dae_encode.specs.Instructions.{form};
ghost use Rattle.dae_encode.specs.Processor.{held, operand, address, is_good_private, is_shared, bad_address, early_fault, put_word, decoded, with_result, called, finish, halts, prints, request};
ghost use Rattle.dae_core.specs.Codes.{asked, legal_word};
ghost use Rattle.dae_core.specs.Held.{IsSame, asked_next, came_to, fresh, granted_to, said_nothing};
ghost use Rattle.dae_encode.specs.declared.InstructionForm.TheVariants.{Calls, Computes};
ghost use Rattle.dae_encode.specs.declared.QueueUse.TheVariants.{Nothing};
ghost use Rattle.dae_encode.specs.declared.Request.TheVariants.{Faulty};
ghost use Rattle.dae_core.specs.Moves.{after_load, after_store, answered_by, unprinted, Came, Tells};

use crate::code::{Legal, legal_words};
use crate::memory::{load, store};
use crate::ports::waits;
use crate::{CoreAnswer, Ports};
use dae_base::{LoadKind, Piece, Side, Signedness, Width, byte_piece, decimal_piece, hex_piece};
use dae_encode::{
    Fault, Halt, Inst, InstructionForm, QueueUse, bad_call, is_shared, is_within, next, value,
};
use std::alloc::{AllocError, Global};
use std::marker::Model;

/// A processor with its code, its registers, its counter and its private memory. Beside the words of the code stand the
/// instructions that they spell, so that each is decoded once.
#[derive(Drop)]
pub struct Core {
    side: Side,
    copies: bool,
    registers: [u32; 32],
    counter: u32,
    private: Vec<u8>,
    halted: Option<Halt>,
    words: Vec<u32>,
    code: Vec<Option<Legal>>,
}

impl Model for Core {
    ghost use Rattle.std.specs.Prelude.{◌≡◌, ◌<◌, ◌^◌, length, map};
    ghost use Rattle.dae_core.specs.Codes.{legal_word};
    ghost use Rattle.dae_core.specs.Held.{HeldCore};

    ghost Value = { HeldCore };

    ghost view = { λ c.
        record {
          side = c.side;
          copies = c.copies;
          code = c.words.items;
          processor = record {
            registers = c.registers;
            counter = c.counter;
            private = c.private.items;
            halt = c.halted;
          };
        } };

    ghost invariant = { λ c. (length c.private.items < 2 ^ 32)
        × (c.code.items ≡ map (legal_word c.copies c.side) c.words.items) };
}

impl Core {
    /// A processor before its first instruction: the counter at the entry, the registers 0, and so many bytes of private
    /// memory that hold zeros, over this code. Register 28 stands for a queue exactly where copies are allowed.
    pub fn open(
        alloc: Global,
        side: Side,
        entry: u32,
        private: u32,
        copies: bool,
        code: &[u32],
    ) -> Result<Core, AllocError>
        ensures { IfOk result
            (λ core. core
            ≡ record {
              side = side;
              copies = copies;
              code = code.now;
              processor = fresh entry private;
            }) }
    {
        let private = vec![in alloc; 0; private as usize]?;
        let words = Vec::from_slice(alloc, code)?;
        let code = legal_words(alloc, copies, side, code)?;
        Ok(Core {
            side,
            copies,
            registers: [0; 32],
            counter: entry,
            private,
            halted: None,
            words,
            code,
        })
    }

    /// What a register holds. Register 0 is 0.
    pub fn register(&self, number: u8) -> u32
        requires { number < 32 }
        ensures { result ≡ held self.now.processor number }
    {
        match number {
            0 => 0,
            _ => self.registers[number as usize],
        }
    }

    /// The byte address of the next instruction.
    pub fn counter(&self) -> u32
        ensures { result ≡ self.now.processor.counter }
    {
        self.counter
    }

    /// How it halted, or None where it didn't.
    pub fn halted(&self) -> Option<Halt>
        ensures { result ≡ self.now.processor.halt }
    {
        self.halted
    }

    fn read(&self, given: u32, register: u8) -> u32
        ensures { result ≡ operand self.now.processor given register }
    {
        if register < 28 {
            self.register(register)
        } else {
            given
        }
    }

    fn address(&self, given: u32, base: u8, offset: u32) -> u32
        ensures { result ≡ address self.now.processor given base offset }
    {
        self.read(given, base).wrapping_add(offset)
    }

    fn holds(&self, width: Width, addr: u32) -> bool
        ensures { result ≡ is_good_private self.now.processor width addr }
    {
        is_within(0, self.private.len() as u32, width, addr)
    }

    #[inline(always)]
    fn bad_address(
        &self,
        memory: u32,
        access: QueueUse,
        width: Width,
        base: u8,
        addr: u32,
    ) -> Option<Fault>
        ensures { result ≡ bad_address memory self.now.processor access width base addr }
    {
        if is_shared(access) {
            if is_within(16, memory, width, addr) {
                None
            } else {
                Some(Fault::Shared)
            }
        } else if base >= 28 || self.holds(width, addr) {
            None
        } else {
            Some(Fault::Private)
        }
    }

    #[tactic(auto, unfolding(dae_encode::specs::Processor::early_fault))]
    #[inline(always)]
    fn early_fault(&self, memory: u32, access: QueueUse, form: &InstructionForm) -> Option<Fault>
        ensures { result ≡ early_fault self.now.side memory self.now.processor access form.now }
    {
        match *form {
            InstructionForm::Computes(_, _, _) => None,
            InstructionForm::Loads(kind, _, base, offset) => {
                self.bad_address(
                    memory,
                    access,
                    kind.width(),
                    base,
                    self.address(0, base, offset),
                )
            }
            InstructionForm::Stores(width, base, _, offset) => {
                self.bad_address(memory, access, width, base, self.address(0, base, offset))
            }
            InstructionForm::Calls => bad_call(self.side, self.registers[17]),
        }
    }

    fn is_halted(&self) -> bool
        ensures { result ≡ is_some self.now.processor.halt }
    {
        self.halted.is_some()
    }

    /// The next instruction, or the fault of its counter or of its word.
    #[inline(always)]
    fn fetch(&self) -> Result<Legal, Fault>
        requires { self.now.processor.halt ≡ None }
        ensures ok { IfOk result
            (λ l. (l.form ≡ form l.inst)
            × ((memory : ℕ)
            → request self.now.copies self.now.side self.now.code memory self.now.processor
            ≡ asked self.now.side memory self.now.processor l)) }
        ensures err { IfErr result
            (λ fault. (memory : ℕ)
            → request self.now.copies self.now.side self.now.code memory self.now.processor
            ≡ Faulty fault) }
    {
        if self.counter % 4 != 0 {
            return Err(Fault::BadPc);
        }
        match self.entry((self.counter / 4) as usize) {
            None => Err(Fault::BadPc),
            Some(None) => Err(Fault::Illegal),
            Some(Some(legal)) => Ok(legal),
        }
    }

    #[inline(always)]
    fn entry(&self, at: usize) -> Option<Option<Legal>>
        ensures { result
            ≡ option_map (legal_word self.now.copies self.now.side) (slice_get self.now.code at) }
    {
        self.code.get(at).copied()
    }

    fn find(&self, kind: LoadKind, addr: u32) -> u32
        ensures { result ≡ loaded kind addr self.now.processor.private }
    {
        load(&self.private, kind, addr)
    }

    fn put(&mut self, width: Width, addr: u32, word: u32)
        ensures { self.new
            ≡ record self.old {
              processor = record self.old.processor {
                counter = plus self.old.processor.counter 4;
                private = stored width addr word self.old.processor.private;
              };
            } }
    {
        store(&mut self.private, width, addr, word);
        self.counter = self.counter.wrapping_add(4);
    }

    fn go_on(&mut self, rd: u8, word: u32, next: u32)
        ensures { self.new
            ≡ record self.old {
              processor = record self.old.processor {
                registers = with_result rd word self.old.processor.registers;
                counter = next;
              };
            } }
    {
        if 0 < rd && rd < 28 {
            self.registers[rd as usize] = word;
        }
        self.counter = next;
    }

    fn halt(&mut self, halt: Halt) -> Piece
        ensures held { IsSame self.old self.new }
        ensures came { Some (self.new.processor, result) ≡ halts self.old.processor halt }
    {
        self.counter = self.counter.wrapping_add(4);
        self.halted = Some(halt);
        Piece::empty()
    }

    fn print(&mut self, piece: Piece) -> Piece
        ensures held { IsSame self.old self.new }
        ensures came { Some (self.new.processor, result) ≡ prints self.old.processor piece }
    {
        self.counter = self.counter.wrapping_add(4);
        piece
    }

    /// The environment call, whose selector was found good.
    fn call(&mut self) -> Piece
        ensures held { IsSame self.old self.new }
        ensures came { Some (self.new.processor, result)
            ≡ called self.old.side self.old.processor (slice_index self.old.processor.registers 17)
            (slice_index self.old.processor.registers 10) }
    {
        let word = self.registers[10];
        if let Side::A = self.side {
            return self.halt(Halt::Plain);
        }
        match self.registers[17] {
            0 => self.halt(Halt::Status(word)),
            1 => self.print(byte_piece(word)),
            2 => self.print(decimal_piece(word, Signedness::Signed)),
            3 => self.print(decimal_piece(word, Signedness::Unsigned)),
            4 => self.print(hex_piece(word)),
            _ => self.halt(Halt::Trap(word)),
        }
    }

    /// Does an instruction that computes, where its access gives this word, and tells the word that it computes.
    #[tactic(auto, unfolding(dae_encode::specs::Processor::finish, dae_encode::specs::Processor::put_word))]
    #[inline(always)]
    fn compute(&mut self, inst: &Inst, rd: u8, x: u8, y: u8, given: u32) -> u32
        ensures held { IsSame self.old self.new }
        ensures came { finish self.old.side self.old.processor Nothing inst.now
            (Computes rd x y) given ≡ Some (self.new.processor, []) }
        ensures word { given ≡ 0
            → result ≡ put_word self.old.processor Nothing inst.now (Computes rd x y) }
    {
        let (first, second) = (self.read(given, x), self.read(given, y));
        let (inst, counter) = (*inst, self.counter);
        let result = value(&inst, counter, first, second);
        let after = next(&inst, counter, first, second);
        self.go_on(rd, result, after);
        result
    }

    /// Does an instruction that is no call, where its access gives this word, and tells the word that goes into the queue
    /// where the access gives 0, or None where a private address is bad, and then nothing changes.
    #[tactic(auto, unfolding(dae_encode::specs::Processor::finish, dae_encode::specs::Processor::put_word))]
    #[inline(always)]
    fn finish(
        &mut self,
        access: QueueUse,
        inst: &Inst,
        form: &InstructionForm,
        given: u32,
    ) -> Option<u32>
        requires { form.now ≢ Calls }
        ensures held { IsSame self.old self.new }
        ensures came { finish self.old.side self.old.processor access inst.now form.now given
            ≡ came_to self.new.processor (said_nothing (is_some result)) }
        ensures word { given ≡ 0
            → IfSome result (λ word. word ≡ put_word self.old.processor access inst.now form.now) }
        ensures none { result ≡ None → self.new ≡ self.old }
    {
        match *form {
            InstructionForm::Computes(rd, x, y) => Some(self.compute(inst, rd, x, y, given)),
            InstructionForm::Loads(kind, rd, base, offset) => {
                let addr = self.address(given, base, offset);
                self.finish_load(access, kind, rd, addr)
            }
            InstructionForm::Stores(width, base, source, offset) => {
                let addr = self.address(given, base, offset);
                let datum = self.read(given, source);
                self.finish_store(access, width, addr, datum)
            }
            InstructionForm::Calls => unreachable!(),
        }
    }

    fn finish_load(&mut self, access: QueueUse, kind: LoadKind, rd: u8, addr: u32) -> Option<u32>
        ensures held { IsSame self.old self.new }
        ensures came { came_to self.new.processor (said_nothing (is_some result))
            ≡ after_load self.old.processor access kind rd addr }
        ensures word { result
            ≡ (if is_shared access then Some addr else
            (if is_good_private self.old.processor (width_of kind) addr then Some
            (loaded kind addr self.old.processor.private) else None)) }
        ensures none { result ≡ None → self.new ≡ self.old }
    {
        let past = self.counter.wrapping_add(4);
        if is_shared(access) {
            self.go_on(0, 0, past);
            return Some(addr);
        }
        if !self.holds(kind.width(), addr) {
            return None;
        }
        let found = self.find(kind, addr);
        self.go_on(rd, found, past);
        Some(found)
    }

    fn finish_store(&mut self, access: QueueUse, width: Width, addr: u32, datum: u32) -> Option<u32>
        ensures held { IsSame self.old self.new }
        ensures came { came_to self.new.processor (said_nothing (is_some result))
            ≡ after_store self.old.processor access width addr datum }
        ensures word { IfSome result (λ word. word ≡ addr) }
        ensures none { result ≡ None → self.new ≡ self.old }
    {
        if is_shared(access) {
            let past = self.counter.wrapping_add(4);
            self.go_on(0, 0, past);
            return Some(addr);
        }
        if !self.holds(width, addr) {
            return None;
        }
        self.put(width, addr, datum);
        Some(addr)
    }

    /// Whether an instruction whose access gives this word has a good private address, or none.
    #[tactic(auto, unfolding(dae_encode::specs::Processor::finish))]
    fn can_finish(&self, access: QueueUse, inst: &Inst, form: &InstructionForm, given: u32) -> bool
        ensures { result
            ≡ is_some (finish self.now.side self.now.processor access inst.now form.now given) }
    {
        match *form {
            InstructionForm::Loads(kind, _, base, offset) => {
                is_shared(access) || self.holds(kind.width(), self.address(given, base, offset))
            }
            InstructionForm::Stores(width, base, _, offset) => {
                is_shared(access) || self.holds(width, self.address(given, base, offset))
            }
            InstructionForm::Computes(_, _, _) | InstructionForm::Calls => true,
        }
    }

    /// Does the next instruction, where the queues allow it. `memory` is the number of bytes of the common memory.
    /// A fault is found before the queues are looked at, but for a bad private address whose base comes from a queue.
    pub fn step<P: Ports>(&mut self, memory: u32, ports: &mut P) -> CoreAnswer
        requires { P.can_count ports.old }
        ensures held { IsSame self.old self.new }
        ensures answer { result
            ≡ answered_by P.is_ready P.front self.old.side self.old.processor ports.old
            (request self.old.copies self.old.side self.old.code memory self.old.processor) }
        ensures told { Tells result
            (granted_to P.is_ready P.front P.after self.old ports.old (asked_next self.old memory))
            self.old.processor ports.old self.new.processor ports.new }
    {
        match self.try_step(memory, ports) {
            Some(piece) => CoreAnswer::Did(piece),
            None => self.look(memory, ports),
        }
    }

    /// Does the next instruction, where it has a step, and tells what it prints, or None, and then nothing changes.
    #[inline(always)]
    pub fn try_step<P: Ports>(&mut self, memory: u32, ports: &mut P) -> Option<Piece>
        requires { P.can_count ports.old }
        ensures held { IsSame self.old self.new }
        ensures came { Came result
            (granted_to P.is_ready P.front P.after self.old ports.old (asked_next self.old memory))
            self.old.processor ports.old self.new.processor ports.new }
    {
        if self.is_halted() {
            return None;
        }
        match self.fetch() {
            Err(_) => None,
            Ok(legal) => self.try_legal(memory, &legal, ports),
        }
    }

    // An instruction that computes has no fault: it is kept by its queue alone, and done at once where it has none.
    #[tactic(auto, unfolding(dae_encode::specs::Processor::early_fault, dae_encode::specs::Processor::finish, dae_encode::specs::Processor::put_word), using(crate::proofs::Commits::commits_alike))]
    #[inline(always)]
    fn try_legal<P: Ports>(&mut self, memory: u32, legal: &Legal, ports: &mut P) -> Option<Piece>
        requires count { P.can_count ports.old }
        requires form { legal.now.form ≡ form legal.now.inst }
        ensures held { IsSame self.old self.new }
        ensures came { Came result
            (granted_to P.is_ready P.front P.after self.old ports.old
            (asked self.old.side memory self.old.processor legal.now)) self.old.processor ports.old
            self.new.processor ports.new }
    {
        match (legal.access, legal.form) {
            (QueueUse::Nothing, InstructionForm::Computes(rd, x, y)) => {
                let _ = self.compute(&legal.inst, rd, x, y, 0);
                Some(Piece::empty())
            }
            (QueueUse::Take(queue), InstructionForm::Computes(rd, x, y)) => {
                let given = ports.offer(QueueUse::Take(queue))?;
                let _ = self.compute(&legal.inst, rd, x, y, given);
                ports.commit(QueueUse::Take(queue), 0);
                Some(Piece::empty())
            }
            (QueueUse::Push(queue), InstructionForm::Computes(rd, x, y)) => {
                let given = ports.offer(QueueUse::Push(queue))?;
                let word = self.compute(&legal.inst, rd, x, y, given);
                ports.commit(QueueUse::Push(queue), word);
                Some(Piece::empty())
            }
            _ => self.try_access(memory, legal, ports),
        }
    }

    #[tactic(auto, unfolding(dae_encode::specs::Processor::finish, dae_encode::specs::Processor::put_word), using(crate::proofs::Commits::commits_alike))]
    #[inline(always)]
    fn try_access<P: Ports>(&mut self, memory: u32, legal: &Legal, ports: &mut P) -> Option<Piece>
        requires count { P.can_count ports.old }
        requires form { legal.now.form ≡ form legal.now.inst }
        ensures held { IsSame self.old self.new }
        ensures came { Came result
            (granted_to P.is_ready P.front P.after self.old ports.old
            (asked self.old.side memory self.old.processor legal.now)) self.old.processor ports.old
            self.new.processor ports.new }
    {
        let access = legal.access;
        if self.early_fault(memory, access, &legal.form).is_some() {
            return None;
        }
        let given = ports.offer(access)?;
        if let InstructionForm::Calls = legal.form {
            let piece = self.call();
            ports.commit(access, 0);
            return Some(piece);
        }
        let word = self.finish(access, &legal.inst, &legal.form, given)?;
        ports.commit(access, word);
        Some(Piece::empty())
    }

    /// What a step would answer now, with an empty piece in place of what it would print.
    pub fn look<P: Ports>(&self, memory: u32, ports: &P) -> CoreAnswer
        ensures { result
            ≡ unprinted
            (answered_by P.is_ready P.front self.now.side self.now.processor ports.now
            (request self.now.copies self.now.side self.now.code memory self.now.processor)) }
    {
        if self.is_halted() {
            return CoreAnswer::Halted;
        }
        match self.fetch() {
            Err(fault) => CoreAnswer::Faulted(fault),
            Ok(legal) => self.look_legal(memory, &legal, ports),
        }
    }

    fn look_legal<P: Ports>(&self, memory: u32, legal: &Legal, ports: &P) -> CoreAnswer
        requires form { legal.now.form ≡ form legal.now.inst }
        ensures { result
            ≡ unprinted
            (answered_by P.is_ready P.front self.now.side self.now.processor ports.now
            (asked self.now.side memory self.now.processor legal.now)) }
    {
        let access = legal.access;
        if let Some(fault) = self.early_fault(memory, access, &legal.form) {
            return CoreAnswer::Faulted(fault);
        }
        let Some(given) = ports.offer(access) else {
            return waits(access);
        };
        if self.can_finish(access, &legal.inst, &legal.form, given) {
            CoreAnswer::Did(Piece::empty())
        } else {
            CoreAnswer::Faulted(Fault::Private)
        }
    }
}
