// The bytes of one load or store.
ghost use Rattle.std.specs.Prelude.{◌≡◌, ◌<◌, ◌≤◌, length, nat_eq, IsSome, IfSome, ◌↔◌};
ghost use Rattle.std.specs.Cmp.{partial_equiv_from_equiv};
ghost use Rattle.std.specs.Cmp.Lexicographic.{pointwise, nat_list_eq_equiv};

use std::marker::Model;

/// The bytes of one load or store: at most 8.
#[derive(Clone, Copy)]
pub struct FewBytes {
    bytes: [u8; 8],
    len: u8,
}

impl Model for FewBytes {
    ghost use Rattle.std.specs.Prelude.{List, ℕ, length};
    ghost use Rattle.machine.specs.FewBytes.{first_bytes, IsFew, padded_to_8, padded_again};

    ghost Value = { List ℕ };

    ghost use Rattle.machine.specs.declared.few_bytes.FewBytes.TheInside.{Inside};

    ghost view = { λ few. first_bytes few.bytes few.len };

    ghost invariant = { λ few. IsFew few.bytes few.len };

    ghost inverse = { λ list. record { bytes = padded_to_8 list; len = length list } };

    ghost inverse_ok = { λ few is. let both : (bytes : List ℕ) (len : ℕ)
        → Inside = λ bytes len. record { bytes = bytes; len = len } in
        λ i. both (padded_again few.bytes few.len is i) (is.counted i) };
}

impl PartialEq for FewBytes {
    ghost eq = { pointwise nat_eq };

    ghost laws = { partial_equiv_from_equiv nat_list_eq_equiv };

    fn eq(&self, other: &FewBytes) -> bool {
        self.as_slice() == other.as_slice()
    }
}

impl Eq for FewBytes {
    ghost laws = { nat_list_eq_equiv };
}

impl FewBytes {
    /// Makes a `FewBytes` of these bytes. Returns `None` if there are more than 8.
    pub fn new(bytes: &[u8]) -> Option<Self>
        ensures few { IsSome result ↔ (length bytes.now ≤ 8) }
        ensures same { IfSome result (λ few. few ≡ bytes.now) }
    {
        if bytes.len() > 8 {
            None
        } else {
            Some(FewBytes::of(bytes))
        }
    }

    // Makes a `FewBytes` of these bytes. There must be at most 8.
    pub(crate) fn of(bytes: &[u8]) -> Self
        requires { length bytes.now ≤ 8 }
        ensures { result ≡ bytes.now }
    {
        let mut all = [0; 8];
        all[..bytes.len()].copy_from_slice(bytes);
        FewBytes {
            bytes: all,
            len: bytes.len() as u8,
        }
    }

    /// Returns the bytes, in the order of their addresses.
    pub fn as_slice(&self) -> &[u8]
        ensures same { result.now ≡ self.now }
        ensures few { length result.now ≤ 8 }
    {
        &self.bytes[..self.len as usize]
    }
}
