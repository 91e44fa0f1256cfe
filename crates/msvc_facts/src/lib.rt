//! Facts about the definitions to believe, which the prover computes on symbols, trees and texts that are written out.
//! Tables of letters, codes, operators and words are pinned whole: a row that is changed, added or left out makes a
//! fact false. Of each other definition a fact pins what it shows. No other crate uses this one, so a new fact proves
//! nothing else anew.
#![tactic(auto)]

ghost use Rattle.msvc_facts.specs.BackReferences.{AreNameReferences, AreTypeReferences, AreWrittenOut};
ghost use Rattle.msvc_facts.specs.Buffers.{AreBuffers};
ghost use Rattle.msvc_facts.specs.CallFlags.{AreCallFlags};
ghost use Rattle.msvc_facts.specs.Declarations.{
  AreDeclarations,
  AreFlags,
  AreNames,
  AreSpaces,
  AreTemplateArguments,
  AreTypes,
};
ghost use Rattle.msvc_facts.specs.Errors.{AreErrors};
ghost use Rattle.msvc_facts.specs.Filtered.{AreCandidates, AreFiltered, AreFitting};
ghost use Rattle.msvc_facts.specs.FullTexts.{AreFullTexts};
ghost use Rattle.msvc_facts.specs.Letters.{AreTables};
ghost use Rattle.msvc_facts.specs.Runs.{AreFaults, AreLineRuns};
ghost use Rattle.msvc_facts.specs.Texts.{AreAnswered, AreArguments, AreLines, AreWords, AreWordsInFull};
ghost use Rattle.msvc_facts.specs.Trees.{AreCounted, AreRefused, AreTrees};

/// Does nothing. Each clause is a record of facts, which hold of the definitions alone; a fact that no clause names
/// would not be checked.
pub fn facts()
    ensures tables { AreTables }
    ensures trees { AreTrees }
    ensures counts { AreCounted }
    ensures refusals { AreRefused }
    ensures name_references { AreNameReferences }
    ensures type_references { AreTypeReferences }
    ensures written_out { AreWrittenOut }
    ensures spaces { AreSpaces }
    ensures declarations { AreDeclarations }
    ensures names { AreNames }
    ensures types { AreTypes }
    ensures template_arguments { AreTemplateArguments }
    ensures flags { AreFlags }
    ensures full_texts { AreFullTexts }
    ensures errors { AreErrors }
    ensures lines { AreLines }
    ensures answers { AreAnswered }
    ensures arguments { AreArguments }
    ensures words { AreWords }
    ensures words_in_full { AreWordsInFull }
    ensures candidates { AreCandidates }
    ensures filtered { AreFiltered }
    ensures fitted { AreFitting }
    ensures faults { AreFaults }
    ensures line_runs { AreLineRuns }
    ensures buffers { AreBuffers }
    ensures call_flags { AreCallFlags }
{}
