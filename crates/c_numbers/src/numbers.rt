// Numbers of a kind, and operators on two numbers.

ghost use Rattle.std.specs.Prelude.{◌≡◌, ◌+◌, ◌-◌, ◌*◌, ◌%◌, ◌^◌, ◌<◌, ◌≤◌, ◌&&◌, ◌+ℤ◌, ◌*ℤ◌, neg_ℤ, pos, negsuc, int_div, int_le, int_rem, IfOk, false, true, MatchOption};
ghost use Rattle.c_tree.specs.Constants as spec;
ghost use Rattle.c_tree.specs.Kinds as kinds;
ghost use Rattle.c_numbers.specs.Told.{number_told};

use crate::kinds::{common, widened};
use c_tree::{BinaryOperator, Kind, KindBase, Width};
use vg_base::Memory;

/// What an operator on numbers gives: a number, the end of the run, or nothing that is told.
#[derive(Clone, Copy)]
pub enum NumberWorth {
    Is(i128),
    Ends,
    Untold,
}

/// The number modulo the count of numbers that have so many bits.
pub fn modulo(width: Width, number: i128) -> u64
    ensures { result ≡ spec.modulo number (2 ^ kinds.bits width) }
{
    match width {
        Width::Eight => number.rem_euclid(1 << 8) as u64,
        Width::Sixteen => number.rem_euclid(1 << 16) as u64,
        Width::ThirtyTwo => number.rem_euclid(1 << 32) as u64,
        Width::SixtyFour => number.rem_euclid(1 << 64) as u64,
    }
}

// How many of the numbers with so many bits have no sign.
fn half(width: Width) -> u64
    ensures value { result ≡ 2 ^ (kinds.bits width - 1) }
    ensures double { result + result ≡ 2 ^ kinds.bits width }
{
    match width {
        Width::Eight => 1 << 7,
        Width::Sixteen => 1 << 15,
        Width::ThirtyTwo => 1 << 31,
        Width::SixtyFour => 1 << 63,
    }
}

// The number with a sign that has these bits.
fn signed(width: Width, bits: u64) -> i128
    ensures { result ≡ spec.signed (kinds.bits width) bits }
{
    let half = half(width);
    if bits < half {
        bits as i128
    } else {
        let all = half as u128 + half as u128;
        -1 - (all - 1).saturating_sub(bits as u128) as i128
    }
}

// Whether a number has so many bits, one of them the sign.
fn in_range(width: Width, number: i128) -> bool
    ensures { result ≡ spec.in_range (kinds.bits width) number }
{
    let half = half(width) as i128;
    -half <= number && number < half
}

// The number with a sign that has these low bits. It is the number itself where it has no others.
fn wrap_signed(width: Width, number: i128) -> i128
    ensures { result ≡ spec.signed (kinds.bits width) (spec.modulo number (2 ^ kinds.bits width)) }
{
    if in_range(width, number) {
        return number;
    }
    signed(width, modulo(width, number))
}

fn wrap_base(base: KindBase, number: i128) -> i128
    ensures { result ≡ spec.wrap_base base number }
{
    match base {
        KindBase::Integer(width, true) => wrap_signed(width, number),
        KindBase::Integer(width, false) => modulo(width, number) as i128,
        _ => number,
    }
}

/// A number modulo the width of a kind.
pub fn wrap(kind: Kind, number: i128) -> i128
    ensures { result ≡ spec.wrap kind number }
{
    wrap_base(kind.base, number)
}

/// The result of an operation: a signed overflow ends the run, an unsigned one wraps.
pub fn result(kind: Kind, number: i128) -> NumberWorth
    ensures { number_told result ≡ spec.result kind number }
{
    match kind.base {
        KindBase::Integer(width, true) => {
            if in_range(width, number) {
                NumberWorth::Is(number)
            } else {
                NumberWorth::Ends
            }
        }
        base => NumberWorth::Is(wrap_base(base, number)),
    }
}

/// The number of a truth.
pub fn truth(test: bool) -> NumberWorth
    ensures { number_told result ≡ spec.truth test }
{
    NumberWorth::Is(if test { 1 } else { 0 })
}

fn bits_in(base: KindBase, number: i128) -> u64
    ensures { result ≡ spec.bits_in base number }
{
    match base {
        KindBase::Integer(width, _) => modulo(width, number),
        _ => 0,
    }
}

fn added(kind: Kind, a: i128, b: i128) -> Result<NumberWorth, Memory>
    ensures { IfOk result (λ worth. number_told worth ≡ spec.result kind (a +ℤ b)) }
{
    match a.checked_add(b) {
        None => Err(Memory),
        Some(sum) => Ok(result(kind, sum)),
    }
}

fn subtracted(kind: Kind, a: i128, b: i128) -> Result<NumberWorth, Memory>
    ensures { IfOk result (λ worth. number_told worth ≡ spec.result kind (a +ℤ neg_ℤ b)) }
{
    match b.checked_neg() {
        None => Err(Memory),
        Some(less) => added(kind, a, less),
    }
}

// The bits of a product.
fn product_bits(width: Width, a: u64, b: u64) -> u64
    ensures { result ≡ a * b % 2 ^ kinds.bits width }
{
    let product = a as u128 * b as u128;
    match width {
        Width::Eight => (product % (1 << 8)) as u64,
        Width::Sixteen => (product % (1 << 16)) as u64,
        Width::ThirtyTwo => (product % (1 << 32)) as u64,
        Width::SixtyFour => (product % (1 << 64)) as u64,
    }
}

fn multiplied(kind: Kind, a: i128, b: i128) -> Result<NumberWorth, Memory>
    ensures { IfOk result (λ worth. number_told worth ≡ spec.result kind (spec.wrap kind a *ℤ spec.wrap kind b)) }
{
    match kind.base {
        KindBase::Integer(width, false) => Ok(NumberWorth::Is(
            product_bits(width, modulo(width, a), modulo(width, b)) as i128,
        )),
        base => match wrap_base(base, a).checked_mul(wrap_base(base, b)) {
            None => Err(Memory),
            Some(product) => Ok(result(kind, product)),
        },
    }
}

// A number, unless the run ends.
fn if_told(worth: NumberWorth, number: i128) -> NumberWorth
    ensures { number_told result ≡ spec.if_told (number_told worth) number }
{
    match worth {
        NumberWorth::Ends => NumberWorth::Ends,
        _ => NumberWorth::Is(number),
    }
}

fn divided(kind: Kind, a: i128, b: i128) -> Result<NumberWorth, Memory>
    ensures { IfOk result (λ worth. number_told worth ≡ spec.divided kind int_div a b) }
{
    if b == 0 {
        return Ok(NumberWorth::Ends);
    }
    match a.checked_div(b) {
        None => Err(Memory),
        Some(quotient) => Ok(if_told(result(kind, quotient), quotient)),
    }
}

fn remainder(kind: Kind, a: i128, b: i128) -> Result<NumberWorth, Memory>
    ensures { IfOk result (λ worth. number_told worth ≡ spec.divided kind int_rem a b) }
{
    if b == 0 {
        return Ok(NumberWorth::Ends);
    }
    match (a.checked_div(b), a.checked_rem(b)) {
        (Some(quotient), Some(rest)) => Ok(if_told(result(kind, quotient), rest)),
        _ => Err(Memory),
    }
}

// The number of a kind that has these bits.
fn of_bits(kind: Kind, bits: u64) -> NumberWorth
    ensures { number_told result ≡ spec.Is (spec.Figure (spec.wrap kind (pos bits))) }
{
    NumberWorth::Is(wrap(kind, bits as i128))
}

fn are_equal(a: i128, b: i128) -> bool
    ensures { result ≡ (int_le a b && int_le b a) }
{
    a <= b && b <= a
}

/// An arithmetic operator on two numbers that are taken in a kind.
fn calculated(operator: BinaryOperator, kind: Kind, a: i128, b: i128) -> Result<NumberWorth, Memory>
    ensures { IfOk result (λ worth. number_told worth ≡ spec.calculated operator kind (spec.wrap kind a) (spec.wrap kind b)) }
{
    let x = wrap(kind, a);
    let y = wrap(kind, b);
    match operator {
        BinaryOperator::Add => added(kind, x, y),
        BinaryOperator::Subtract => subtracted(kind, x, y),
        BinaryOperator::Multiply => multiplied(kind, a, b),
        BinaryOperator::Divide => divided(kind, x, y),
        BinaryOperator::Remainder => remainder(kind, x, y),
        BinaryOperator::BitAnd => Ok(of_bits(kind, bits_in(kind.base, x) & bits_in(kind.base, y))),
        BinaryOperator::BitOr => Ok(of_bits(kind, bits_in(kind.base, x) | bits_in(kind.base, y))),
        BinaryOperator::BitXor => Ok(of_bits(kind, bits_in(kind.base, x) ^ bits_in(kind.base, y))),
        BinaryOperator::Equal => Ok(truth(are_equal(x, y))),
        BinaryOperator::Unequal => Ok(truth(!are_equal(x, y))),
        BinaryOperator::Less => Ok(truth(x < y)),
        BinaryOperator::Greater => Ok(truth(y < x)),
        BinaryOperator::AtMost => Ok(truth(x <= y)),
        BinaryOperator::AtLeast => Ok(truth(y <= x)),
        BinaryOperator::Or
        | BinaryOperator::And
        | BinaryOperator::ShiftLeft
        | BinaryOperator::ShiftRight => Ok(NumberWorth::Untold),
    }
}

fn width_of(base: KindBase) -> u32
    ensures value { result ≡ spec.width_of base }
    ensures bound { result ≤ 64 }
{
    match base {
        KindBase::Integer(Width::Eight, _) => 8,
        KindBase::Integer(Width::Sixteen, _) => 16,
        KindBase::Integer(Width::ThirtyTwo, _) => 32,
        KindBase::Integer(Width::SixtyFour, _) => 64,
        _ => 0,
    }
}

// The amount of a shift, where it is within the width of a kind.
fn amount(kind: Kind, number: i128) -> Option<u32>
    ensures { MatchOption result
        (spec.is_amount kind number ≡ false)
        (λ amount. (spec.is_amount kind number ≡ true) × (spec.amount_of number ≡ amount) × (amount < 64)) }
{
    if 0 <= number && number < width_of(kind.base) as i128 {
        Some(number as u32)
    } else {
        None
    }
}

fn shifted_left(kind: Kind, number: i128, amount: u32) -> Result<NumberWorth, Memory>
    requires { amount < 64 }
    ensures { IfOk result (λ worth. number_told worth ≡ spec.result kind (number *ℤ pos (2 ^ amount))) }
{
    let power: i128 = 1 << amount;
    match number.checked_mul(power) {
        None => Err(Memory),
        Some(product) => Ok(result(kind, product)),
    }
}

fn shifted_right(number: i128, amount: u32) -> i128
    requires { amount < 64 }
    ensures { result ≡ spec.shifted_right number amount }
{
    number >> amount
}

fn shifted(operator: BinaryOperator, kind: Kind, a: i128, b: i128) -> Result<NumberWorth, Memory>
    ensures { IfOk result (λ worth. number_told worth ≡ spec.shifted operator kind a b) }
{
    match (operator, amount(kind, b)) {
        (BinaryOperator::ShiftLeft, Some(amount)) => shifted_left(kind, a, amount),
        (BinaryOperator::ShiftRight, Some(amount)) => {
            Ok(NumberWorth::Is(shifted_right(a, amount)))
        }
        (BinaryOperator::ShiftLeft | BinaryOperator::ShiftRight, None) => Ok(NumberWorth::Ends),
        _ => Ok(NumberWorth::Untold),
    }
}

/// An operator on two numbers, each in the kind that it is computed in.
pub fn combine_numbers(
    operator: BinaryOperator,
    j: Kind,
    k: Kind,
    a: i128,
    b: i128,
) -> Result<NumberWorth, Memory>
    ensures { IfOk result (λ worth. number_told worth ≡ spec.numbers operator j k a b) }
{
    match operator {
        BinaryOperator::ShiftLeft | BinaryOperator::ShiftRight => {
            shifted(operator, widened(j), a, b)
        }
        _ => calculated(operator, common(j, k), a, b),
    }
}

/// The opposite of a number that is taken in a kind.
pub fn negated(kind: Kind, number: i128) -> Result<NumberWorth, Memory>
    ensures { IfOk result (λ worth. number_told worth ≡ spec.result kind (neg_ℤ (spec.wrap kind number))) }
{
    match wrap(kind, number).checked_neg() {
        None => Err(Memory),
        Some(less) => Ok(result(kind, less)),
    }
}

/// A number with each bit changed.
pub fn complement(kind: Kind, number: i128) -> Result<NumberWorth, Memory>
    ensures { IfOk result (λ worth. number_told worth ≡ spec.Is (spec.Figure (spec.wrap kind (neg_ℤ number +ℤ negsuc 0)))) }
{
    let Some(less) = number.checked_neg() else {
        return Err(Memory);
    };
    match less.checked_add(-1) {
        None => Err(Memory),
        Some(number) => Ok(NumberWorth::Is(wrap(kind, number))),
    }
}
