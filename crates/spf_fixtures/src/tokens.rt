//! Tokens.

/// The header `{"alg":"ES256","kid":"k1","typ":"JWT"}` and the claims
/// `{"sub":"spiffe://example.org/w","aud":"a","exp":9}`.
pub const TOKEN1: &str = "eyJhbGciOiJFUzI1NiIsImtpZCI6ImsxIiwidHlwIjoiSldUIn0.\
     eyJzdWIiOiJzcGlmZmU6Ly9leGFtcGxlLm9yZy93IiwiYXVkIjoiYSIsImV4cCI6OX0.sig";
