// What a controller is put together from.
use frames::GrantKind;
use oracles::WriteOracle;

// A frame kind and a write oracle.
pub trait Assembly {
    type Kind: GrantKind;

    type Oracle: WriteOracle + Drop;
}

impl<K: GrantKind, O: WriteOracle + Drop> Assembly for (K, O) {
    type Kind = K;

    type Oracle = O;
}
