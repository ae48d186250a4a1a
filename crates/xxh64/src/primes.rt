// The five primes of XXH64.
pub(crate) const PRIME_1: u64 = 0x9e37_79b1_85eb_ca87;

pub(crate) const PRIME_2: u64 = 0xc2b2_ae3d_27d4_eb4f;

pub(crate) const PRIME_3: u64 = 0x1656_67b1_9e37_79f9;

pub(crate) const PRIME_4: u64 = 0x85eb_ca77_c2b2_ae63;

pub(crate) const PRIME_5: u64 = 0x27d4_eb2f_1656_67c5;
