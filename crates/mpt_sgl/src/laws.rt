//! What holds of lists and the bytes that spell them, whoever wrote them. The function does nothing:
//! its clauses are the laws.
ghost use Rattle.std.specs.Prelude.{◌≡◌};
ghost use Rattle.mpt_sgl.specs.declared.chained.Chained.{Chained};
ghost use Rattle.mpt_sgl.specs.declared.list.List.{List as ScatterList};
ghost use Rattle.mpt_sgl.specs.Spelling.{IsSized, Spells, addresses};

/// For given addresses of its frames a list has one spelling, and bytes spell one list at most.
pub fn spellings_are_one_to_one()
    ensures one_spelling { (list : ScatterList) (a b : Chained) → IsSized a → IsSized b
        → addresses a.frames ≡ addresses b.frames → Spells list a → Spells list b → a ≡ b }
    ensures one_list { (a b : ScatterList) (c : Chained) → Spells a c → Spells b c → a ≡ b }
{}
