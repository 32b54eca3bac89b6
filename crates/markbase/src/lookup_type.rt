// The two types of lookups.
ghost use Rattle.markbase.specs.LookupTypes.{Names};

/// What the offsets of a lookup lead to: subtables, or their extensions.
#[derive(Clone, Copy, Debug, PartialEq, Eq)]
pub enum LookupType {
    MarkToBase = 4,
    Extension = 9,
}

/// A lookup's first word that names neither type.
#[derive(Clone, Copy, Debug, PartialEq, Eq)]
pub struct UnknownLookupType(pub u16);

#[tactic(auto, unfolding(crate::specs::LookupTypes::type_from))]
impl TryFrom<u16> for LookupType {
    type Error = UnknownLookupType;

    ghost try_from_gives = { Names };

    /// The type that a lookup's first word names.
    fn try_from(word: u16) -> Result<LookupType, UnknownLookupType> {
        match word {
            4 => Ok(LookupType::MarkToBase),
            9 => Ok(LookupType::Extension),
            _ => Err(UnknownLookupType(word)),
        }
    }
}
