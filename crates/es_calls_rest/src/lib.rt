//! Each public call of the crates that read and answer requests, called with stated answers.
#![tactic(auto)]

#[cfg(test)]
mod doc_json_calls;
#[cfg(test)]
mod es_rest_calls;
#[cfg(test)]
mod found;
#[cfg(test)]
mod given;
#[cfg(test)]
mod reply_json_calls;
#[cfg(test)]
mod search_json_calls;
