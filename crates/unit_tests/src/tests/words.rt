//! What is known of words, where no refusal tells it.

use insn::operation::{BinOp, Width};
use known_bits::KnownBits;
use range::domain::Domain;
use scalar::Scalar;

#[test]
fn what_is_known_of_words(rt: HostRuntime) {
    let any = Scalar::any();
    let index = Scalar::apply(BinOp::And, Width::W64, any, Scalar::exact(7));
    assert!(rt; any.covers(index) && !index.covers(any));
    assert!(rt; index.covers(Scalar::exact(5)) && !index.covers(Scalar::exact(8)));
    let bit = KnownBits::join(KnownBits::exact(0), KnownBits::exact(1));
    let sum = KnownBits::apply(BinOp::Add, Width::W64, bit, bit);
    assert!(rt; sum.value() == 0 && sum.mask() == 3);
    let one = KnownBits::exact(1);
    let difference = KnownBits::apply(BinOp::Sub, Width::W64, bit, one);
    assert!(rt; difference.value() == 0 && difference.mask() == 0xffff_ffff_ffff_ffff);
    let low = KnownBits::apply(BinOp::Sub, Width::W32, bit, one);
    assert!(rt; low.value() == 0 && low.mask() == 0xffff_ffff);
    // They are copied at each step of a walk.
    assert_eq!(rt; std::mem::size_of::<Scalar>(), 56);
}
