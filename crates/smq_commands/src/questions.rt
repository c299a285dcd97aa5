//! What --ask asks.
use clap::Error;
use smq_count::Counting;
use smq_report::Pick;
use smq_words::bad_words;
use std::alloc::{AllocError, Global};

/// The questions of words, each as a row `ask` has it behind its first field.
pub(crate) fn questions_of(alloc: Global, words: &[String]) -> Result<Vec<String>, Error> {
    let mut questions = Vec::new(alloc);
    for word in words {
        let text = word.as_str();
        let Some(question) = question_of(alloc, text)? else {
            let message = format!(in alloc;
                "'{text}' is no question: a view, a list, report, or count and columns, as 'count link,network'"
            )?;
            return Err(bad_words(alloc, message.as_str())?);
        };
        questions.push(question).map_err(AllocError::from)?;
    }
    Ok(questions)
}

/// The question of a word, where it is one.
fn question_of(alloc: Global, word: &str) -> Result<Option<String>, AllocError> {
    if let Some(("count", columns)) = word.split_once(" ") {
        return match Counting::parse(alloc, columns.as_bytes(), &[])? {
            Some(_) => Ok(Some(format!(in alloc; "count,{columns}")?)),
            None => Ok(None),
        };
    }
    if word == "report" || Pick::named(word.as_bytes()).is_some() {
        return Ok(Some(String::from_str(alloc, word)?));
    }
    Ok(None)
}
