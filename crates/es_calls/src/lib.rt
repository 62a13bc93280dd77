//! Each public call of the crates that the machine stands on or next to, called with stated answers: values and fields, ids,
//! queries, sorts, slices, readers, what is outside, and requests on the wire. `es_calls_core` has those of the crates above.
#![tactic(auto)]

#[cfg(test)]
mod ctx_ids_calls;
#[cfg(test)]
mod es_outside_calls;
#[cfg(test)]
mod es_query_calls;
#[cfg(test)]
mod es_sort_calls;
#[cfg(test)]
mod es_types_calls;
#[cfg(test)]
mod es_types_fields;
#[cfg(test)]
mod http_wire_calls;
#[cfg(test)]
mod reader_gate_calls;
#[cfg(test)]
mod slice_rule_calls;
