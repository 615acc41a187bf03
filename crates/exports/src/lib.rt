// What the exported calls over a film answer and leave: specs/Calls. States survive the C boundary: specs/Boundary. Several calls in a row: specs/Row. There is no code.
#![tactic(auto)]
