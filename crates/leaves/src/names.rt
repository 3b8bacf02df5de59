// Names, compared without ASCII case.
ghost use Rattle.std.specs.Prelude.{◌≡◌};
ghost use Rattle.leaves.specs.Name.{lowered, same_name};

#[tactic(auto, using(crate::proofs::Words::lowered_is))]
pub fn lower(x: u8) -> u8
    ensures { result ≡ lowered x }
{
    x.to_ascii_lowercase()
}

// Whether two names are the same but for ASCII case.
pub fn same_name(a: &[u8], b: &[u8]) -> bool
    ensures { result ≡ same_name a.now b.now }
{
    a.eq_ignore_ascii_case(b)
}
