//! Habits in conditions.

/// In `if`, `elsif` and `unless`.
pub static CONDITION: &str = "\
¦||¦`||` is written `or`
¦|¦a condition has no filters; `assign` the filtered value before it
not¦¦`not` isn't known; write `{% unless a %}` or `a == false`
¦! =¦`!=` is written without a space in it
¦!contains¦`!contains` is written `{% unless a contains b %}`
¦!¦`!` isn't known; write `{% unless a %}` or `a == false`
¦not¦`not` isn't known; write `!=`, or `{% unless a contains b %}`
¦?¦no `?` stands here; compare with `nil`, or `.size` with 0
=¦~¦`=~` isn't known; write `a contains 'text'`
¦=>¦`=>` is written `>=`
¦=<¦`=<` is written `<=`
==¦=¦`===` is written `==`
!=¦=¦`!==` is written `!=`
¦==¦`==` stands between two values; comparisons are joined by `and`
¦!=¦`!=` stands between two values; comparisons are joined by `and`
¦<=¦`<=` stands between two values; comparisons are joined by `and`
¦>=¦`>=` stands between two values; comparisons are joined by `and`
¦<¦`<` stands between two values; comparisons are joined by `and`
¦>¦`>` stands between two values; comparisons are joined by `and`
¦=¦`=` doesn't compare; write `==`
¦in¦`in` is written the other way round, `list contains item`
¦is none¦`is none` is written `== nil`
¦is nil¦`is nil` is written `== nil`
¦is null¦`is null` is written `== nil`
¦is not¦`is not` is written `!=`
¦is empty¦`is empty` isn't known; compare with `''`, or `.size` with 0
¦is divisibleby¦ask for the rest: `{% assign rest = a | modulo: 3 %}{% if rest == 0 %}`
¦is divisible¦ask for the rest: `{% assign rest = a | modulo: 3 %}{% if rest == 0 %}`
¦is odd¦ask for the rest: `{% assign rest = a | modulo: 2 %}{% if rest == 1 %}`
¦is even¦ask for the rest: `{% assign rest = a | modulo: 2 %}{% if rest == 0 %}`
¦is defined¦`is defined` is written `{% if a %}`
¦is¦`is` is written `==`; `is defined` is written `{% if a %}`
¦,¦conditions are joined by `and` or `or`
¦greater¦`greater than` is written `>`
¦bigger¦`bigger than` is written `>`
¦more¦`more than` is written `>`
¦less¦`less than` is written `<`
¦smaller¦`smaller than` is written `<`
¦equal¦`equal to` is written `==`
¦between¦`a between 1 and 3` is written `a >= 1 and a <= 3`
¦starts¦how a text starts is asked by `assign`, with `| slice: 0, 2`, and `==`
¦starts_with¦how a text starts is asked by `assign`, with `| slice: 0, 2`, and `==`
¦startswith¦how a text starts is asked by `assign`, with `| slice: 0, 2`, and `==`
¦startsWith¦how a text starts is asked by `assign`, with `| slice: 0, 2`, and `==`
¦begins¦how a text starts is asked by `assign`, with `| slice: 0, 2`, and `==`
¦begins_with¦how a text starts is asked by `assign`, with `| slice: 0, 2`, and `==`
¦ends¦how a text ends is asked by `assign`, with `| slice: -2, 2`, and `==`
¦ends_with¦how a text ends is asked by `assign`, with `| slice: -2, 2`, and `==`
¦endswith¦how a text ends is asked by `assign`, with `| slice: -2, 2`, and `==`
¦endsWith¦how a text ends is asked by `assign`, with `| slice: -2, 2`, and `==`
¦like¦`like` isn't known; write `a contains 'text'`
¦matches¦`matches` isn't known; write `a contains 'text'`
¦exists¦`exists` isn't known; write `{% if a %}`
¦defined¦`defined` isn't known; write `{% if a %}`
¦xor¦`xor` isn't known; write one `{% if %}` inside another
¦contain¦did you mean `contains`?
¦constains¦did you mean `contains`?
¦includes¦`includes` is written `contains`
¦include¦`include` is written `contains`
¦has¦`has` is written `contains`
¦eq¦`eq` is written `==`
¦equals¦`equals` is written `==`
¦ne¦`ne` is written `!=`
¦gt¦`gt` is written `>`
¦lt¦`lt` is written `<`
¦gte¦`gte` is written `>=`
¦lte¦`lte` is written `<=`
¦AND¦`AND` is written in small letters, `and`
¦OR¦`OR` is written in small letters, `or`
¦then¦a condition ends without `then`
==¦{¦a map can't be written in a template; compare `.size` with 0
¦{¦a condition ends without `{`
¦:¦a condition ends without `:`
¦+¦a condition doesn't compute; `assign` the sum before it, with `| plus: 1`
¦-¦a condition doesn't compute; `assign` the number before it, with `| minus: 1`
¦*¦a condition doesn't compute; `assign` the number before it, with `| times: 2`
¦%¦a condition doesn't compute; `assign` the number before it, with `| modulo: 2`
";
