// What stands in an answer.
ghost use Rattle.std.specs.Prelude.{◌≡◌, IfErr, IfOk, None, Some, is_some, option_and_then, option_map};
ghost use Rattle.serde_json.specs.Find.{pointer};
ghost use Rattle.serde_json.specs.View.{view};
ghost use Rattle.etcd_text.specs.Answers.{answer_value, has_succeeded, is_token, number_under, string_under};
ghost use Rattle.etcd_text.specs.steps.Reading.{IsUnread};

use crate::numbers::string_number;
use engine_core::EngineFault;
use serde_json::Value;
use std::alloc::Global;

/// The JSON value that an answer is.
pub fn document(alloc: Global, body: &[u8]) -> Result<Value, EngineFault>
    ensures found { IfOk result (λ value. answer_value body.now ≡ Some (view value)) }
    ensures refused { IfErr result (λ e. IsUnread e (answer_value body.now)) }
{
    match Value::from_slice(alloc, body) {
        Ok(value) => Ok(value),
        Err(error) => {
            if error.is_memory() {
                return Err(EngineFault::NoMemory);
            }
            Err(EngineFault::NoAnswer)
        }
    }
}

/// The string under a pointer. It takes no memory.
pub fn string_under<'a>(value: &'a Value, path: &str) -> Option<&'a str>
    ensures { option_map (λ s. s.now) result ≡ string_under path.now (view value.now) }
{
    value.pointer(path)?.as_str()
}

/// The number under a pointer. It takes no memory.
pub fn number_under(value: &Value, path: &str) -> Option<u64>
    ensures { result ≡ number_under path.now (view value.now) }
{
    string_number(string_under(value, path)?.as_bytes())
}

/// Something stands under a pointer. It takes no memory.
pub fn has(value: &Value, path: &str) -> bool
    ensures { result ≡ is_some (pointer path.now (view value.now)) }
{
    value.pointer(path).is_some()
}

/// The transaction was done. It takes no memory.
pub fn has_succeeded(value: &Value) -> bool
    ensures { result ≡ has_succeeded (view value.now) }
{
    match value.get("succeeded") {
        Some(succeeded) => succeeded.as_bool().unwrap_or(false),
        None => false,
    }
}

/// The owner's key was put by this token. It takes no memory.
pub fn is_token(value: &Value, token: &str) -> bool
    ensures { result ≡ is_token token.now (view value.now) }
{
    match string_under(value, "/kvs/0/value") {
        Some(found) => found == token,
        None => false,
    }
}
