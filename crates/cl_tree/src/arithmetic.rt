//! The arithmetic of the integer kinds (C11 6.3.1 and 6.5, at the widths of the profile).

ghost use Rattle.std.specs.Prelude.{◌≡◌, ℕ, ◌^◌, ◌<◌, ◌↔◌, ℤ, pos, ◌+ℤ◌, ◌-ℤ◌, ◌*ℤ◌, true, false, Ok, IfOk};
ghost use Rattle.cl_tree.specs.Arithmetic.{width, is_signed, least, beyond, fits, residue, value, settled, apply, is_shift, apply_one, is_arithmetic, all_ones, letter_value, can_shift, shifted_left, shifted_right, quotient, remainder, truth, is_zero, rank, promoted, common, unsigned_counterpart, holds_all_of, mixed};

use crate::kinds::{BinOp, IntKind, TrapCause, UnOp};

impl IntKind {
    /// How many bits a value has.
    #[tactic(auto, unfolding(crate::specs::Arithmetic::width))]
    pub fn width(self) -> u32
        ensures value { result ≡ width self }
        ensures bound { result < 65 }
    {
        match self {
            IntKind::I8 | IntKind::U8 => 8,
            IntKind::I16 | IntKind::U16 => 16,
            IntKind::I32 | IntKind::U32 => 32,
            IntKind::Long | IntKind::ULong | IntKind::LLong | IntKind::ULLong => 64,
        }
    }

    /// Whether the kind has negative numbers.
    #[tactic(auto, unfolding(crate::specs::Arithmetic::is_signed))]
    pub fn is_signed(self) -> bool
        ensures { result ≡ is_signed self }
    {
        match self {
            IntKind::I8 | IntKind::I16 | IntKind::I32 | IntKind::Long | IntKind::LLong => true,
            IntKind::U8 | IntKind::U16 | IntKind::U32 | IntKind::ULong | IntKind::ULLong => false,
        }
    }

    /// The conversion rank (C11 6.3.1.1): a number that rises from `char` to `long long`.
    #[tactic(auto, unfolding(crate::specs::Arithmetic::rank))]
    fn rank(self) -> u8
        ensures { result ≡ rank self }
    {
        match self {
            IntKind::I8 | IntKind::U8 => 1,
            IntKind::I16 | IntKind::U16 => 2,
            IntKind::I32 | IntKind::U32 => 3,
            IntKind::Long | IntKind::ULong => 4,
            IntKind::LLong | IntKind::ULLong => 5,
        }
    }

    /// The kind after the integer promotion (C11 6.3.1.1).
    #[tactic(auto, unfolding(crate::specs::Arithmetic::promoted))]
    pub fn promoted(self) -> IntKind
        ensures { result ≡ promoted self }
    {
        if self.rank() < IntKind::I32.rank() {
            IntKind::I32
        } else {
            self
        }
    }

    /// The kind in which two operands of these kinds meet: the usual arithmetic conversions (C11 6.3.1.8), promotion included.
    #[tactic(auto, unfolding(crate::specs::Arithmetic::common, crate::specs::Arithmetic::balanced, crate::specs::Arithmetic::higher))]
    pub fn common(self, other: IntKind) -> IntKind
        ensures { result ≡ common self other }
    {
        let left = self.promoted();
        let right = other.promoted();
        match (left.is_signed(), right.is_signed()) {
            (true, false) => mixed(left, right),
            (false, true) => mixed(right, left),
            _ => if left.rank() < right.rank() {
                right
            } else {
                left
            },
        }
    }

    /// The unsigned kind of the same rank.
    #[tactic(auto, unfolding(crate::specs::Arithmetic::unsigned_counterpart))]
    fn unsigned_counterpart(self) -> IntKind
        ensures { result ≡ unsigned_counterpart self }
    {
        match self {
            IntKind::I8 => IntKind::U8,
            IntKind::I16 => IntKind::U16,
            IntKind::I32 => IntKind::U32,
            IntKind::Long => IntKind::ULong,
            IntKind::LLong => IntKind::ULLong,
            _ => self,
        }
    }
}

#[tactic(auto, unfolding(crate::specs::Arithmetic::holds_all_of))]
fn holds_all_of(a: IntKind, b: IntKind) -> bool
    ensures { result ≡ holds_all_of a b }
{
    let (a_least, a_beyond) = bounds(a);
    let (b_least, b_beyond) = bounds(b);
    a_least <= b_least && b_beyond <= a_beyond
}

/// The common kind of a signed and an unsigned one.
#[tactic(auto, unfolding(crate::specs::Arithmetic::mixed))]
fn mixed(signed: IntKind, unsigned: IntKind) -> IntKind
    ensures { result ≡ mixed signed unsigned }
{
    if signed.rank() <= unsigned.rank() {
        unsigned
    } else if holds_all_of(signed, unsigned) {
        signed
    } else {
        signed.unsigned_counterpart()
    }
}

/// The least number of a kind, and the number behind its greatest.
#[tactic(auto, unfolding(crate::specs::Arithmetic::width, crate::specs::Arithmetic::is_signed, crate::specs::Arithmetic::least, crate::specs::Arithmetic::beyond))]
fn bounds(kind: IntKind) -> (i128, i128)
    ensures least { result.0 ≡ least kind }
    ensures beyond { result.1 ≡ beyond kind }
{
    match kind {
        IntKind::I8 => (-0x80, 0x80),
        IntKind::U8 => (0, 0x100),
        IntKind::I16 => (-0x8000, 0x8000),
        IntKind::U16 => (0, 0x1_0000),
        IntKind::I32 => (-0x8000_0000, 0x8000_0000),
        IntKind::U32 => (0, 0x1_0000_0000),
        IntKind::Long | IntKind::LLong => (-0x8000_0000_0000_0000, 0x8000_0000_0000_0000),
        IntKind::ULong | IntKind::ULLong => (0, 0x1_0000_0000_0000_0000),
    }
}

/// Two to the width of a kind.
#[tactic(auto, unfolding(crate::specs::Arithmetic::width))]
fn modulus(kind: IntKind) -> i128
    ensures { result ≡ pos (2 ^ width kind) }
{
    match kind {
        IntKind::I8 | IntKind::U8 => 0x100,
        IntKind::I16 | IntKind::U16 => 0x1_0000,
        IntKind::I32 | IntKind::U32 => 0x1_0000_0000,
        IntKind::Long | IntKind::ULong | IntKind::LLong | IntKind::ULLong =>
            0x1_0000_0000_0000_0000,
    }
}

/// Whether `n` is a number of `kind`.
#[tactic(auto, unfolding(crate::specs::Arithmetic::fits))]
pub fn fits(kind: IntKind, n: i128) -> bool
    ensures { result ≡ fits kind n }
{
    let (least, beyond) = bounds(kind);
    least <= n && n < beyond
}

/// What is left of a number in the bits of a kind.
#[tactic(auto, unfolding(crate::specs::Arithmetic::residue))]
fn residue(kind: IntKind, n: i128) -> i128
    ensures { result ≡ pos (residue kind n) }
{
    n.rem_euclid(modulus(kind))
}

/// The value of `n` in `kind`: the number of the kind that differs from it by a multiple of two to the width (C11 6.3.1.3).
#[tactic(auto, unfolding(crate::specs::Arithmetic::value))]
pub fn convert(kind: IntKind, n: i128) -> i128
    ensures value { result ≡ value kind n }
    ensures fits { fits kind result ≡ true }
{
    let left = residue(kind, n);
    let (_, beyond) = bounds(kind);
    if left < beyond {
        left
    } else {
        left - modulus(kind)
    }
}

/// A law: a number differs from its value in a kind by a multiple of two to the width, and that value is the one
/// number of the kind that does.
pub fn value_is_congruent(kind: IntKind, n: i128)
    ensures congruent { (k : ℤ) × (n ≡ value kind n +ℤ k *ℤ pos (2 ^ width kind)) }
    ensures only { (m k : ℤ) → fits kind m ≡ true → n ≡ m +ℤ k *ℤ pos (2 ^ width kind) → m ≡ value kind n }
{}

/// A whole-number result in a kind, or the trap where it is out of a signed one's range.
#[tactic(auto, unfolding(crate::specs::Arithmetic::settled))]
fn settle(kind: IntKind, n: i128) -> Result<i128, TrapCause>
    ensures value { result ≡ settled kind n }
    ensures fits { IfOk result (λ r. fits kind r ≡ true) }
{
    if !kind.is_signed() {
        return Ok(convert(kind, n));
    }
    if fits(kind, n) {
        Ok(n)
    } else {
        Err(TrapCause::Overflow)
    }
}

/// What a comparison gives: 1 or 0.
#[tactic(auto, unfolding(crate::specs::Arithmetic::truth))]
fn truth(holds: bool) -> i128
    ensures { result ≡ truth holds }
{
    if holds { 1 } else { 0 }
}

#[tactic(auto, unfolding(crate::specs::Arithmetic::is_zero))]
fn is_zero(n: i128) -> bool
    ensures { result ≡ is_zero n }
{
    n == 0
}

/// The bits of a value of a kind.
fn bits(kind: IntKind, n: i128) -> u64
    ensures { result ≡ residue kind n }
{
    residue(kind, n) as u64
}

/// Two to the power of a shift count.
fn power(count: u32) -> i128
    requires { count < 64 }
    ensures { result ≡ pos (2 ^ count) }
{
    i128::from(1u64 << count)
}

#[tactic(auto, unfolding(crate::specs::Arithmetic::can_shift))]
fn can_shift(kind: IntKind, count: i128) -> bool
    ensures { result ≡ can_shift kind count }
{
    0 <= count && count < i128::from(kind.width())
}

#[tactic(auto, unfolding(crate::specs::Arithmetic::shifted_left))]
fn shift_left(kind: IntKind, a: i128, count: i128) -> Result<i128, TrapCause>
    requires { fits kind a ≡ true }
    ensures value { result ≡ shifted_left kind a count }
    ensures fits { IfOk result (λ r. fits kind r ≡ true) }
{
    if !can_shift(kind, count) || a < 0 {
        return Err(TrapCause::Shift);
    }
    settle(kind, a * power(count as u32))
}

#[tactic(auto, unfolding(crate::specs::Arithmetic::shifted_right))]
fn shift_right(kind: IntKind, a: i128, count: i128) -> Result<i128, TrapCause>
    requires { fits kind a ≡ true }
    ensures value { result ≡ shifted_right kind a count }
    ensures fits { IfOk result (λ r. fits kind r ≡ true) }
{
    if !can_shift(kind, count) {
        return Err(TrapCause::Shift);
    }
    Ok(a.div_euclid(power(count as u32)))
}

/// The product of two unsigned numbers, which may pass an i128 but not a u128.
fn multiply_unsigned(kind: IntKind, a: i128, b: i128) -> i128
    requires unsigned { is_signed kind ≡ false }
    requires left { fits kind a ≡ true }
    requires right { fits kind b ≡ true }
    ensures { result ≡ value kind (a *ℤ b) }
{
    let product = a as u128 * b as u128;
    (product % modulus(kind) as u128) as i128
}

fn multiply(kind: IntKind, a: i128, b: i128) -> Result<i128, TrapCause>
    requires left { fits kind a ≡ true }
    requires right { fits kind b ≡ true }
    ensures value { result ≡ settled kind (a *ℤ b) }
    ensures fits { IfOk result (λ r. fits kind r ≡ true) }
{
    if kind.is_signed() {
        settle(kind, a * b)
    } else {
        Ok(multiply_unsigned(kind, a, b))
    }
}

#[tactic(auto, unfolding(crate::specs::Arithmetic::quotient))]
fn divide(kind: IntKind, a: i128, b: i128) -> Result<i128, TrapCause>
    requires { fits kind a ≡ true }
    ensures value { result ≡ quotient kind a b }
    ensures fits { IfOk result (λ r. fits kind r ≡ true) }
{
    if is_zero(b) {
        Err(TrapCause::Divide)
    } else {
        settle(kind, a / b)
    }
}

#[tactic(auto, unfolding(crate::specs::Arithmetic::remainder))]
fn remainder(kind: IntKind, a: i128, b: i128) -> Result<i128, TrapCause>
    requires { fits kind a ≡ true }
    ensures value { result ≡ remainder kind a b }
    ensures fits { IfOk result (λ r. fits kind r ≡ true) }
{
    if is_zero(b) {
        return Err(TrapCause::Divide);
    }
    if fits(kind, a / b) {
        Ok(a % b)
    } else {
        Err(TrapCause::Overflow)
    }
}

/// A law of `/` and `%`: where both have a result, `(a / b) * b + a % b` is `a` (C11 6.5.5).
pub fn quotient_and_remainder(kind: IntKind, a: i128, b: i128)
    ensures { (q r : ℤ) → quotient kind a b ≡ Ok q → remainder kind a b ≡ Ok r → q *ℤ b +ℤ r ≡ a }
{}

/// The value of an operator on two values of `kind`, or why it traps (C11 6.5.5 to 6.5.14). For a
/// shift `b` is the count, which may be of any kind; else it is a value of `kind` too. On `||` and
/// `&&` both values count.
#[tactic(auto, unfolding(crate::specs::Arithmetic::apply, crate::specs::Arithmetic::is_shift))]
pub fn apply(op: BinOp, kind: IntKind, a: i128, b: i128) -> Result<i128, TrapCause>
    requires left { fits kind a ≡ true }
    requires right { is_shift op ≡ false → fits kind b ≡ true }
    ensures value { result ≡ apply op kind a b }
    ensures fits { IfOk result (λ r. fits kind r ≡ true) }
{
    match op {
        BinOp::Or => Ok(truth(!is_zero(a) || !is_zero(b))),
        BinOp::And => Ok(truth(!is_zero(a) && !is_zero(b))),
        BinOp::BitOr => Ok(convert(kind, i128::from(bits(kind, a) | bits(kind, b)))),
        BinOp::Xor => Ok(convert(kind, i128::from(bits(kind, a) ^ bits(kind, b)))),
        BinOp::BitAnd => Ok(convert(kind, i128::from(bits(kind, a) & bits(kind, b)))),
        BinOp::Equal => Ok(truth(a == b)),
        BinOp::Unequal => Ok(truth(a != b)),
        BinOp::Less => Ok(truth(a < b)),
        BinOp::Greater => Ok(truth(a > b)),
        BinOp::AtMost => Ok(truth(a <= b)),
        BinOp::AtLeast => Ok(truth(a >= b)),
        BinOp::Left => shift_left(kind, a, b),
        BinOp::Right => shift_right(kind, a, b),
        BinOp::Add => settle(kind, a + b),
        BinOp::Sub => settle(kind, a - b),
        BinOp::Mul => multiply(kind, a, b),
        BinOp::Div => divide(kind, a, b),
        BinOp::Rem => remainder(kind, a, b),
    }
}

/// The bits of a kind, all of them 1.
#[tactic(auto, unfolding(crate::specs::Arithmetic::width, crate::specs::Arithmetic::all_ones))]
fn all_ones(kind: IntKind) -> u64
    ensures { result ≡ all_ones kind }
{
    match kind {
        IntKind::I8 | IntKind::U8 => 0xff,
        IntKind::I16 | IntKind::U16 => 0xffff,
        IntKind::I32 | IntKind::U32 => 0xffff_ffff,
        IntKind::Long | IntKind::ULong | IntKind::LLong | IntKind::ULLong => 0xffff_ffff_ffff_ffff,
    }
}

/// The value of an operator on one value of `kind`, or why it traps (C11 6.5.3.3). `*` and `&` are
/// operators of pointers, and `kind` is a promoted one wherever a program has the operator.
#[tactic(auto, unfolding(crate::specs::Arithmetic::apply_one, crate::specs::Arithmetic::is_arithmetic))]
pub fn apply_one(op: UnOp, kind: IntKind, a: i128) -> Result<i128, TrapCause>
    requires arithmetic { is_arithmetic op ≡ true }
    requires operand { fits kind a ≡ true }
    ensures value { result ≡ apply_one op kind a }
    ensures fits { IfOk result (λ r. fits kind r ≡ true) }
{
    match op {
        UnOp::Minus => settle(kind, -a),
        UnOp::Flip => Ok(convert(kind, i128::from(bits(kind, a) ^ all_ones(kind)))),
        UnOp::Not => Ok(truth(is_zero(a))),
        UnOp::Plus | UnOp::Star | UnOp::Amp => Ok(a),
    }
}

/// The value of a character constant of one byte, in which `char` is signed (C11 6.4.4.4).
#[tactic(auto, unfolding(crate::specs::Arithmetic::letter_value))]
pub fn letter_value(byte: u8) -> i128
    ensures value { result ≡ letter_value byte }
    ensures fits { fits IntKind.I8 result ≡ true }
{
    convert(IntKind::I8, i128::from(byte))
}
