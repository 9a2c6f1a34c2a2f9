//! Registers whose number is another's plus a constant, or a constant less another's, or stands in a block of the stack, too.

ghost use Rattle.std.specs.Option.{option_or};
ghost use Rattle.std.specs.Prelude.{◌≡◌, ◌↔◌, ◌<◌, ℕ, None, Some, if◌then◌else◌, IfNone, IfSome, length, slice_index_or, false, true};
ghost use Rattle.insn.specs.Instruction.{reg_number};
ghost use Rattle.links.specs.Links.{AddsOrMasks, AreHomeless, AreHomesLeft, AreLeft, AreLinksJoined, AreMade, IsFirstLink, IsLinkJoin, bits_masked, bits_moved, is_equal as spec_is_equal, is_whole as spec_is_whole, mask_of as spec_mask_of, home_at, home_unless as spec_home_unless, link_moved, links_in, moved_by, moved_from as spec_moved_from, plus_moved as spec_plus_moved, bits_after, copied, difference_made, has_turn as spec_has_turn, joins as spec_joins, less, lesser, link_after, link_at, link_kept, link_left, link_made, link_of as spec_link_of, with_turn as spec_with_turn};
ghost use Rattle.links.specs.LinksParts.{AreNumbersRefined, AreSameKept, IsEqualKept, IsLinkRefined};
ghost use Rattle.links.specs.Narrowed.{AreLinkNarrowed, AreLowestNarrowed, AreMaskNarrowed, IsMixed, AreSameNarrowed, IsDerived, IsLinkNarrowed, IsNarrowedTo, IsTraced};

use insn::action::Action;
use insn::instruction::Operand;
use insn::operation::{BinOp, Cond, Width};
use insn::register::RegNo;
use range::domain::Domain;
use reg_kind::Reg;
use scalar::Scalar;

/// What a register's number is, by another's and a constant.
#[derive(Clone, Copy, PartialEq, Eq)]
pub enum Relation {
    /// The other one plus the constant.
    Sum,
    /// The constant less the other one.
    Difference,
}

impl Relation {
    /// The numbers of a register, by those of the other one.
    fn derive(self, width: Width, of: Scalar, plus: Scalar) -> Scalar
        ensures { IsDerived self width of plus result }
    {
        match self {
            Relation::Sum => Scalar::apply_by_parts(BinOp::Add, width, of, plus),
            Relation::Difference => Scalar::apply_by_parts(BinOp::Sub, width, plus, of),
        }
    }

    /// The numbers of the other one, by those of the register.
    fn trace(self, width: Width, register: Scalar, plus: Scalar) -> Scalar
        ensures { IsTraced self width register plus result }
    {
        match self {
            Relation::Sum => Scalar::apply_by_parts(BinOp::Sub, width, register, plus),
            Relation::Difference => Scalar::apply_by_parts(BinOp::Sub, width, plus, register),
        }
    }

    /// A link's constant, once another one is added to the other register.
    fn plus_moved(self, plus: u64, added: u64) -> u64
        ensures { result ≡ spec_plus_moved self added plus }
    {
        match self {
            Relation::Sum => plus.wrapping_sub(added),
            Relation::Difference => plus.wrapping_add(added),
        }
    }
}

/// Which bits of a register's number a link tells.
#[derive(Clone, Copy, PartialEq, Eq)]
pub enum Bits {
    /// The lowest ones, of a width.
    Lowest(Width),
    /// All: those of the low half have been shifted to the upper one, and below them are zeros.
    Shifted,
    /// Those of a mask, of the other one's number and of the one that this one's is traced to.
    Masked(u16),
}

impl Bits {
    /// Whether they are others.
    fn are(self, others: Bits) -> bool
        ensures { result ≡ true ↔ self ≡ others }
    {
        self == others
    }

    /// Which it tells after an operation on the register and a constant; `None` where it is lost.
    /// The two numbers may be equal in them.
    fn after_operation(self, width: Width, op: BinOp, imm: i32, equal: bool) -> Option<Bits>
        ensures { result ≡ bits_after width op imm equal self }
    {
        match (width, op, self) {
            (_, BinOp::Add, Bits::Lowest(own)) => Some(Bits::Lowest(lesser_width(width, own))),
            (_, BinOp::Add, Bits::Masked(_)) => Some(self),
            (_, BinOp::And, _) if equal || is_whole(mask_of(imm)) => self.masked(mask_of(imm)),
            (Width::W64, BinOp::Lsh, Bits::Lowest(_)) if imm == 32 => Some(Bits::Shifted),
            (Width::W64, BinOp::Rsh | BinOp::Arsh, Bits::Shifted) if imm == 32 => {
                Some(Bits::Lowest(Width::W32))
            }
            _ => None,
        }
    }

    /// Which it tells once a constant is added to the other register; `None` where it is lost.
    fn moved(self, width: Width) -> Option<Bits>
        ensures { result ≡ bits_moved width self }
    {
        match self {
            Bits::Lowest(own) => Some(Bits::Lowest(lesser_width(width, own))),
            Bits::Masked(mask) if !is_whole(mask) => None,
            _ => Some(self),
        }
    }

    /// Which it tells once all but those of a mask are cleared in either register; `None` where it is lost.
    fn masked(self, mask: u16) -> Option<Bits>
        ensures { result ≡ bits_masked mask self }
    {
        match self {
            Bits::Lowest(_) => Some(Bits::Masked(mask)),
            Bits::Masked(own) => Some(Bits::Masked(own & mask)),
            Bits::Shifted => None,
        }
    }
}

/// Whether a mask has the bits of a byte, or of two: what is left in them of a sum, its terms' bits tell that.
fn is_whole(mask: u16) -> bool
    ensures { result ≡ spec_is_whole mask }
{
    mask == 0xff || mask == 0xffff
}

/// The two lowest bytes of a constant.
fn mask_of(imm: i32) -> u16
    ensures { result ≡ spec_mask_of imm }
{
    (i64::from(imm).cast_unsigned() % 0x1_0000) as u16
}

/// The lesser one of two widths.
fn lesser_width(a: Width, b: Width) -> Width
    ensures { result ≡ lesser a b }
{
    match a {
        Width::W32 => Width::W32,
        Width::W64 => b,
    }
}

/// By which links what a test teaches spreads first, then, and last.
#[derive(Clone, Copy)]
pub enum Turn {
    /// By those that join its left number.
    Left,
    /// By those that join its right one, where that is a register.
    Right,
    /// By those that join neither.
    Others,
}

/// In some bits a register's number is another's plus a constant, or a constant less another's.
#[derive(Clone, Copy)]
pub struct Link {
    pub of: RegNo,
    relation: Relation,
    plus: u64,
    bits: Bits,
}

impl Link {
    /// The link of a copy.
    fn copied(of: RegNo, width: Width) -> Link
        ensures { result ≡ copied of width }
    {
        Link {
            of,
            relation: Relation::Sum,
            plus: 0,
            bits: Bits::Lowest(width),
        }
    }

    /// The link of a constant from which another register's number was taken.
    fn less(plus: u64, of: RegNo, width: Width) -> Link
        ensures { result ≡ less plus of width }
    {
        Link {
            of,
            relation: Relation::Difference,
            plus,
            bits: Bits::Lowest(width),
        }
    }

    /// Whether the numbers are equal in the bits that it tells.
    fn is_equal(self) -> bool
        ensures { result ≡ spec_is_equal self.relation self.plus }
    {
        match self.relation {
            Relation::Sum => self.plus == 0,
            Relation::Difference => false,
        }
    }

    /// The link after an operation on its register and a constant; `None` where it is lost.
    fn after_operation(self, width: Width, op: BinOp, imm: i32) -> Option<Link>
        ensures { result ≡ link_after width op imm self }
    {
        let bits = self.bits.after_operation(width, op, imm, self.is_equal())?;
        let plus = match op {
            BinOp::Add => self.plus.wrapping_add(i64::from(imm).cast_unsigned()),
            _ => self.plus,
        };
        Some(Link { plus, bits, ..self })
    }

    /// The link once a constant is added to the other register, or masks it; `None` where it is lost.
    fn moved(self, width: Width, op: BinOp, imm: i32) -> Option<Link>
        ensures { result ≡ link_moved width op imm self }
    {
        match op {
            BinOp::Add => {
                let bits = self.bits.moved(width)?;
                let added = i64::from(imm).cast_unsigned();
                let plus = self.relation.plus_moved(self.plus, added);
                Some(Link { plus, bits, ..self })
            }
            BinOp::And => {
                let bits = self.bits.masked(mask_of(imm))?;
                Some(Link { bits, ..self })
            }
            _ => None,
        }
    }

    /// A register's link once a constant is added to another register, or masks it; `None` where it is none with that.
    fn moved_from(
        link: Option<Link>,
        dst: RegNo,
        by: (Width, BinOp, i32),
        number: usize,
    ) -> Option<Link>
        ensures { result ≡ spec_moved_from dst by number link }
    {
        let link = link?;
        let dst = dst.number();
        if dst != number && dst == link.of.number() {
            link.moved(by.0, by.1, by.2)
        } else {
            None
        }
    }

    /// The link with its register, unless that is the other one, too.
    fn of_register(self, register: RegNo) -> Option<(RegNo, Link)>
        ensures { result ≡ spec_link_of register self }
    {
        if register.number() == self.of.number() {
            None
        } else {
            Some((register, self))
        }
    }

    /// The same link, where a way that meets has it, too.
    fn agreed(a: Option<Link>, b: Option<Link>) -> Option<Link>
        ensures { IsLinkJoin a b result }
    {
        match (a, b) {
            (Some(one), Some(other)) if one.is(other) => a,
            _ => None,
        }
    }

    /// Whether it is another one.
    fn is(self, other: Link) -> bool
        ensures { result ≡ true ↔ self ≡ other }
    {
        self.bits.are(other.bits)
            && self.of == other.of
            && self.relation == other.relation
            && self.plus == other.plus
    }

    /// Whether a link of a register joins another one, or this is its own: then it is lost when that is written.
    fn joins(link: Option<Link>, other: RegNo, number: usize) -> bool
        ensures left { link_left other number link ≡ (if result then None else link) }
        ensures joins { result ≡ spec_joins other number link }
    {
        let other = other.number();
        match link {
            Some(link) => other == number || other == link.of.number(),
            None => false,
        }
    }

    /// Whether a link of a register has its turn in a test of two numbers.
    fn has_turn(link: Option<Link>, turn: Turn, left: RegNo, right: Operand, number: usize) -> bool
        ensures { result ≡ spec_has_turn turn left right number link }
    {
        let joins = Link::joins(link, left, number);
        match (turn, right) {
            (Turn::Left, _) => joins,
            (Turn::Right, Operand::Reg(right)) => Link::joins(link, right, number),
            (Turn::Right, Operand::Imm(_)) => false,
            (Turn::Others, Operand::Reg(right)) => !joins && !Link::joins(link, right, number),
            (Turn::Others, Operand::Imm(_)) => !joins,
        }
    }

    /// What two linked numbers can still be; `None` where there are none.
    fn refine_numbers(self, a: Scalar, b: Scalar) -> Option<(Scalar, Scalar)>
        ensures right { AreNumbersRefined self a b result }
        ensures narrowed { IfSome result (AreLinkNarrowed self a b) }
    {
        match self.bits {
            Bits::Lowest(width) => self.refine_lowest(width, a, b),
            Bits::Masked(mask) => self.refine_masked(mask, a, b),
            Bits::Shifted => Some((a, b)),
        }
    }

    /// The same, by the bits of a mask: of the other number, where the register's tells something of them, and else of that.
    fn refine_masked(self, mask: u16, a: Scalar, b: Scalar) -> Option<(Scalar, Scalar)>
        requires { self.bits ≡ Bits.Masked mask }
        ensures right { AreNumbersRefined self a b result }
        ensures narrowed { IfSome result (AreMaskNarrowed self mask a b) }
    {
        let plus = Scalar::exact(self.plus);
        let traced = self.relation.trace(Width::W64, b, plus);
        if traced.has(0) && traced.has(u64::from(mask)) {
            let back = mixed(mask, a, traced);
            let derived = self.relation.derive(Width::W64, back, plus);
            let b = narrowed_to(Width::W64, b, derived)?;
            return Some((a, b));
        }
        let among = mixed(mask, traced, a);
        let a = narrowed_to(Width::W64, a, among)?;
        Some((a, b))
    }

    /// The same, by the lowest bits.
    fn refine_lowest(self, width: Width, a: Scalar, b: Scalar) -> Option<(Scalar, Scalar)>
        requires { self.bits ≡ Bits.Lowest width }
        ensures right { AreNumbersRefined self a b result }
        ensures narrowed { IfSome result (AreLowestNarrowed self width a b) }
    {
        let plus = Scalar::exact(self.plus);
        let derived = self.relation.derive(width, a, plus);
        let b = narrowed_to(width, b, derived)?;
        let traced = self.relation.trace(width, b, plus);
        let a = narrowed_to(width, a, traced)?;
        Some((a, b))
    }

    /// What the two registers can still hold; `None` where there is nothing. Those of which one holds no number stay
    /// as they are.
    pub fn refine(self, of: Reg, register: Reg) -> Option<(Reg, Reg)>
        ensures right { IsLinkRefined self of register result }
        ensures kinds { IfSome result (IsLinkNarrowed self of register) }
    {
        let (Reg::Number(a), Reg::Number(b)) = (of, register) else {
            return Some((of, register));
        };
        let (a, b) = self.refine_numbers(a, b)?;
        Some((Reg::Number(a), Reg::Number(b)))
    }
}

/// The numbers that have some numbers' bits inside a mask, and others' outside.
fn mixed(mask: u16, inside: Scalar, outside: Scalar) -> Scalar
    ensures { IsMixed mask inside outside result }
{
    let bits = u64::from(mask);
    let own = Scalar::exact(bits);
    let rest = Scalar::exact(!bits);
    let low = Scalar::apply(BinOp::And, Width::W64, inside, own);
    let high = Scalar::apply(BinOp::And, Width::W64, outside, rest);
    Scalar::apply_by_parts(BinOp::Add, Width::W64, low, high)
}

/// What numbers can still be that equal one of others in a width; `None` where there are none. They stay as they are
/// where the others cover them and there is one of them at least.
fn narrowed_to(width: Width, numbers: Scalar, others: Scalar) -> Option<Scalar>
    ensures right { IsEqualKept width numbers others result }
    ensures narrowed { IfSome result (IsNarrowedTo width numbers others) }
{
    if others.covers(numbers) && numbers.has(numbers.bounds().0) {
        return Some(numbers);
    }
    let (numbers, _) = Scalar::refine(Cond::Eq, width, numbers, others, true)?;
    Some(numbers)
}

/// What numbers can still be that are one of others; `None` where there are none. They are the others where they cover
/// them and there is one of those at least.
fn same_in(numbers: Scalar, others: Scalar) -> Option<Scalar>
    ensures right { IsEqualKept Width.W64 numbers others result }
    ensures narrowed { IfSome result (IsNarrowedTo Width.W64 numbers others) }
{
    if numbers.covers(others) && others.has(others.bounds().0) {
        return Some(others);
    }
    narrowed_to(Width::W64, numbers, others)
}

/// What two numbers can still be that are the same; `None` where there are none.
pub fn refine_same(stored: Scalar, held: Scalar) -> Option<(Scalar, Scalar)>
    ensures right { AreSameKept stored held result }
    ensures narrowed { IfSome result (AreSameNarrowed stored held) }
{
    let held = same_in(held, stored)?;
    let stored = same_in(stored, held)?;
    Some((stored, held))
}

/// What is left of a home when a block is stored to.
fn home_unless(block: u16, home: Option<u16>) -> Option<u16>
    ensures { result ≡ spec_home_unless block home }
{
    match home {
        Some(home) if home != block => Some(home),
        _ => None,
    }
}

/// The same home, where a way that meets has it, too.
fn agreed_home(a: Option<u16>, b: Option<u16>) -> Option<u16>
    ensures { IsLinkJoin a b result }
{
    match (a, b) {
        (Some(one), Some(other)) if one == other => a,
        _ => None,
    }
}

/// Whether there is one among some homes.
fn has_some(homes: &[Option<u16>; 11]) -> bool
    ensures { result ≡ false → (k : ℕ) → k < 11 → slice_index_or homes.now k None ≡ None }
{
    for i in 0..11 {
        if homes[i].is_some() {
            return true;
        }
    }
    false
}

/// The links of the registers, and their homes: blocks of the stack in which their numbers stand, too. Where there are not any,
/// what stands in the lists is none.
#[derive(Clone, Copy)]
pub struct Links {
    any: bool,
    each: [Option<Link>; 11],
    homes: [Option<u16>; 11],
}

impl Links {
    /// No links.
    pub fn none() -> Links
        ensures { (k : ℕ) → (link_at result k ≡ None) × (home_at result k ≡ None) }
    {
        Links {
            any: false,
            each: [None; 11],
            homes: [None; 11],
        }
    }

    /// The link of the register of a number.
    pub fn at(&self, number: usize) -> Option<Link>
        requires { number < 11 }
        ensures { result ≡ link_at self.now number }
    {
        if self.any { self.each[number] } else { None }
    }

    /// The home of the register of a number.
    pub fn home(&self, number: usize) -> Option<u16>
        requires { number < 11 }
        ensures { result ≡ home_at self.now number }
    {
        if self.any { self.homes[number] } else { None }
    }

    /// Whether the register of a number has neither a link nor a home.
    #[inline(always)]
    pub fn is_bare(&self, number: usize) -> bool
        requires { number < 11 }
        ensures link { result ≡ true → link_at self.now number ≡ None }
        ensures home { result ≡ true → home_at self.now number ≡ None }
    {
        self.each[number].is_none() && self.homes[number].is_none()
    }

    /// Whether some register has a home.
    pub fn has_homes(&self) -> bool
        ensures { result ≡ false → AreHomeless self.now }
    {
        self.any && has_some(&self.homes)
    }

    /// Whether there may be some.
    pub fn any(&self) -> bool
        ensures { result ≡ self.now.any }
    {
        self.any
    }

    /// The first register that has one of the links that are moved, and that.
    pub fn first_in(moved: &Option<Links>) -> Option<(usize, Link)>
        ensures some { IfSome result (λ first. IsFirstLink (links_in moved.now) first.0 first.1) }
        ensures none { IfNone result ((k : ℕ) → k < 11 → links_in moved.now k ≡ None) }
    {
        match moved {
            Some(moved) => moved.first(),
            None => None,
        }
    }

    /// The first register that has a link, and that.
    fn first(&self) -> Option<(usize, Link)>
        ensures some { IfSome result (λ first. IsFirstLink (link_at self.now) first.0 first.1) }
        ensures none { IfNone result ((k : ℕ) → k < 11 → link_at self.now k ≡ None) }
    {
        for i in 0..11 {
            if let Some(link) = self.at(i) {
                return Some((i, link));
            }
        }
        None
    }

    /// The link of the register of a number, where it has its turn in a test of two numbers.
    pub fn with_turn(&self, turn: Turn, left: RegNo, right: Operand, number: usize) -> Option<Link>
        requires { number < 11 }
        ensures own { IfSome result (λ link. link_at self.now number ≡ Some link) }
        ensures turn { result ≡ spec_with_turn turn left right number (link_at self.now number) }
    {
        let link = self.at(number);
        if Link::has_turn(link, turn, left, right, number) {
            link
        } else {
            None
        }
    }

    /// Loses the links of a register that is written, and those with it, and its home.
    #[inline(always)]
    pub fn lose(&mut self, written: RegNo)
        ensures { AreLeft written self.old self.new }
    {
        if self.any {
            self.lose_each(written);
            self.homes[written.number()] = None;
        }
    }

    /// The same, where there may be some.
    fn lose_each(&mut self, written: RegNo)
        ensures same { self.new.any ≡ self.old.any }
        ensures homes { self.new.homes ≡ self.old.homes }
        ensures each { (k : ℕ) → k < 11 → slice_index_or self.new.each k None ≡ link_left written k (slice_index_or self.old.each k None) }
    {
        for i in 0..11 {
            if Link::joins(self.each[i], written, i) {
                self.each[i] = None;
            }
        }
    }

    /// Loses the homes that are a block which is stored to.
    pub fn lose_homes(&mut self, block: u16)
        ensures { AreHomesLeft block self.old self.new }
    {
        if self.any {
            self.lose_each_home(block);
        }
    }

    /// The same, where there may be some.
    fn lose_each_home(&mut self, block: u16)
        ensures same { self.new.any ≡ self.old.any }
        ensures links { self.new.each ≡ self.old.each }
        ensures each { (k : ℕ) → k < 11 → slice_index_or self.new.homes k None ≡ spec_home_unless block (slice_index_or self.old.homes k None) }
    {
        for i in 0..11 {
            self.homes[i] = home_unless(block, self.homes[i]);
        }
    }

    /// Keeps the links that others are, too, and the homes.
    pub fn join(&mut self, other: &Links)
        ensures { AreLinksJoined self.old other.now self.new }
    {
        if self.any && other.any {
            self.join_each(&other.each);
            self.join_homes(&other.homes);
        } else {
            self.any = false;
        }
    }

    /// The same, where there may be some of both.
    fn join_each(&mut self, other: &[Option<Link>; 11])
        ensures same { self.new.any ≡ self.old.any }
        ensures homes { self.new.homes ≡ self.old.homes }
        ensures each { (k : ℕ) → k < 11 → IsLinkJoin (slice_index_or self.old.each k None) (slice_index_or other.now k None) (slice_index_or self.new.each k None) }
    {
        for i in 0..11 {
            self.each[i] = Link::agreed(self.each[i], other[i]);
        }
    }

    /// The same, of the homes.
    fn join_homes(&mut self, other: &[Option<u16>; 11])
        ensures same { self.new.any ≡ self.old.any }
        ensures links { self.new.each ≡ self.old.each }
        ensures each { (k : ℕ) → k < 11 → IsLinkJoin (slice_index_or self.old.homes k None) (slice_index_or other.now k None) (slice_index_or self.new.homes k None) }
    {
        for i in 0..11 {
            self.homes[i] = agreed_home(self.homes[i], other[i]);
        }
    }

    /// The link that an instruction makes, by what is known of the registers before it.
    #[inline(always)]
    pub fn made(&self, registers: &[Reg; 11], action: Action) -> Option<(RegNo, Link)>
        ensures { result ≡ link_made registers.now self.now action }
    {
        match action {
            Action::Operate(width, BinOp::Mov, dst, Operand::Reg(src)) => {
                Link::copied(src, width).of_register(dst)
            }
            Action::Operate(width, BinOp::Sub, dst, Operand::Reg(src)) => {
                difference(width, dst, src, registers)
            }
            Action::Operate(width, op, dst, Operand::Imm(imm)) if self.any => {
                self.after_operation(dst, width, op, imm)
            }
            _ => None,
        }
    }

    /// A register's link after an operation on it and a constant.
    fn after_operation(
        &self,
        register: RegNo,
        width: Width,
        op: BinOp,
        imm: i32,
    ) -> Option<(RegNo, Link)>
        ensures { result ≡ link_kept register (width, op, imm) (link_at self.now (reg_number register)) }
    {
        self.at(register.number())?
            .after_operation(width, op, imm)?
            .of_register(register)
    }

    /// Whether an instruction may move links: it adds a constant to a register, or masks it.
    pub fn moves(&self, action: Action) -> bool
        ensures sum { result ≡ true → AddsOrMasks action }
        ensures none { result ≡ false → (k : ℕ) → k < 11 → moved_by action k (link_at self.now k) ≡ None }
    {
        match action {
            Action::Operate(_, BinOp::Add | BinOp::And, _, Operand::Imm(_)) => self.any,
            _ => false,
        }
    }

    /// What becomes of the links with a register that an instruction changes by a constant; `None` where there are none.
    pub fn moved(&self, action: Action) -> Option<Links>
        ensures { (k : ℕ) → k < 11 → links_in result k ≡ moved_by action k (link_at self.now k) }
    {
        match action {
            Action::Operate(width, BinOp::Add, dst, Operand::Imm(imm)) => {
                self.all_moved(dst, (width, BinOp::Add, imm))
            }
            Action::Operate(width, BinOp::And, dst, Operand::Imm(imm)) => {
                self.all_moved(dst, (width, BinOp::And, imm))
            }
            _ => None,
        }
    }

    /// The same, of the register and the constant.
    fn all_moved(&self, dst: RegNo, by: (Width, BinOp, i32)) -> Option<Links>
        ensures { (k : ℕ) → k < 11 → links_in result k ≡ spec_moved_from dst by k (link_at self.now k) }
    {
        if self.any {
            let mut moved = *self;
            moved.move_each(dst, by);
            Some(moved)
        } else {
            None
        }
    }

    /// The same in place, where there may be some.
    fn move_each(&mut self, dst: RegNo, by: (Width, BinOp, i32))
        ensures same { self.new.any ≡ self.old.any }
        ensures each { (k : ℕ) → k < 11 → slice_index_or self.new.each k None ≡ spec_moved_from dst by k (slice_index_or self.old.each k None) }
    {
        for i in 0..11 {
            self.each[i] = Link::moved_from(self.each[i], dst, by, i);
        }
    }

    /// Sets those that are moved.
    fn set_moved(&mut self, moved: &Links)
        ensures { (k : ℕ) → k < 11 → (link_at self.new k ≡ option_or (link_at moved.now k) (link_at self.old k)) × (home_at self.new k ≡ home_at self.old k) }
    {
        self.open();
        self.set_each(moved);
    }

    /// The same, where the lists may be looked at.
    fn set_each(&mut self, moved: &Links)
        ensures same { self.new.any ≡ self.old.any }
        ensures homes { self.new.homes ≡ self.old.homes }
        ensures each { (k : ℕ) → k < 11 → slice_index_or self.new.each k None ≡ option_or (link_at moved.now k) (slice_index_or self.old.each k None) }
    {
        for i in 0..11 {
            self.each[i] = moved.at(i).or(self.each[i]);
        }
    }

    /// Clears the lists where they were not looked at.
    fn open(&mut self)
        ensures eleven { length self.new.each ≡ 11 }
        ensures homes { length self.new.homes ≡ 11 }
        ensures any { self.new.any ≡ true }
        ensures same { (k : ℕ) → k < 11 → (link_at self.new k ≡ link_at self.old k) × (home_at self.new k ≡ home_at self.old k) }
    {
        if !self.any {
            self.each = [None; 11];
            self.homes = [None; 11];
            self.any = true;
        }
    }

    /// Sets the link of a register.
    fn put(&mut self, register: RegNo, link: Link)
        ensures { AreMade (Some (register, link)) None (λ k. None) self.old self.new }
    {
        self.open();
        self.each[register.number()] = Some(link);
    }

    /// Sets the home of a register.
    fn put_home(&mut self, register: RegNo, block: u16)
        ensures { AreMade None (Some (register, block)) (λ k. None) self.old self.new }
    {
        self.open();
        self.homes[register.number()] = Some(block);
    }

    /// Sets those that are moved, where there are some.
    pub fn set_any(&mut self, moved: &Option<Links>)
        ensures { (k : ℕ) → k < 11 → (link_at self.new k ≡ option_or (links_in moved.now k) (link_at self.old k)) × (home_at self.new k ≡ home_at self.old k) }
    {
        if let Some(moved) = moved {
            self.set_moved(moved);
        }
    }

    /// Sets a link and a home, where there are some.
    pub fn make_both(&mut self, link: Option<(RegNo, Link)>, home: Option<(RegNo, u16)>)
        ensures { AreMade link home (λ k. None) self.old self.new }
    {
        if let Some((register, link)) = link {
            self.put(register, link);
        }
        if let Some((register, block)) = home {
            self.put_home(register, block);
        }
    }
}

/// The link of a register after another's number was taken from its own, where that was known exactly.
fn difference(
    width: Width,
    register: RegNo,
    of: RegNo,
    registers: &[Reg; 11],
) -> Option<(RegNo, Link)>
    ensures { result ≡ difference_made width register of registers.now }
{
    let (Reg::Number(from), Reg::Number(_)) = (registers[register.number()], registers[of.number()])
    else {
        return None;
    };
    let (least, greatest) = from.bounds();
    if least == greatest {
        Link::less(least, of, width).of_register(register)
    } else {
        None
    }
}
