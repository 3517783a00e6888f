//! The laws of dictionaries. The calls do nothing: their contracts are the laws.

ghost use Rattle.catalog_core.specs.Dictionaries.{OneDictionary, OneDictionaryFault, NoDictionaryFault, OneDistinct, CodeIsPlace, RanksPartCodes};

/// Bytes are the file of one dictionary at most.
pub fn one_dictionary()
    ensures { OneDictionary }
{}

/// Bytes have one first fault at most, and the file of a dictionary has none.
pub fn one_dictionary_fault()
    ensures one { OneDictionaryFault }
    ensures none { NoDictionaryFault }
{}

/// Texts have one dictionary at most.
pub fn one_distinct()
    ensures { OneDistinct }
{}

/// A text's code is its place, and the codes below a rank are those of the texts that it counts. So a range of texts is a range of
/// codes.
pub fn codes_and_ranks()
    ensures places { CodeIsPlace }
    ensures ranks { RanksPartCodes }
{}
